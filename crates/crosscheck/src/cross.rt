//! A sheet set against the second comparer, on one machine under one order.
use crate::counts::{Counts, count};
use crate::fault::Fault;
use crate::formulas::Formulas;
use crate::page::Page;
use model::{Machine, Order};
use second::Relation;
use sheet::Setting;
use std::alloc::Global;
use until::{Rows, evaluate};

/// Compares what stands and the classes on both sides, and evaluates the reasons, for a sheet that is settled at once and
/// for one on which the pairs of `tries` are tried before.
pub(crate) fn cross<M: Machine, O: Order<Label = M::Label>>(
    heap: Global,
    on: &Setting<M, O>,
    tries: &[(usize, usize)],
    counts: &mut Counts,
) -> Result<(), Fault> {
    let relation = Relation::largest(heap, on.machine, on.order)?;
    let at_once = Page::settled(heap, on, &[])?;
    let after_tries = Page::settled(heap, on, tries)?;
    if at_once.strikes() != after_tries.strikes() {
        count(&mut counts.reordered);
    }
    cross_page(heap, on, &at_once, &relation, counts)?;
    cross_page(heap, on, &after_tries, &relation, counts)
}

/// Sets one sheet against the relation.
fn cross_page<M: Machine, O: Order<Label = M::Label>>(
    heap: Global,
    on: &Setting<M, O>,
    page: &Page,
    relation: &Relation,
    counts: &mut Counts,
) -> Result<(), Fault> {
    compare(on.machine, page, relation, counts)?;
    give_reasons(heap, on, page, relation, counts)?;
    count(&mut counts.comparisons);
    Ok(())
}

/// Compares what stands, and the classes. The class of a state comes before its pairs, so that a test can see that it is compared.
pub(crate) fn compare<M: Machine>(
    machine: &M,
    page: &Page,
    relation: &Relation,
    counts: &mut Counts,
) -> Result<(), Fault> {
    for s in 0..machine.count() {
        if page.class(machine, s)? != relation.class(s) {
            return Err(Fault::Class(s));
        }
        for t in 0..machine.count() {
            let stands = page.below(machine, s, t)?;
            if stands != relation.relates(s, t) {
                return Err(Fault::Standing(s, t));
            }
            if stands {
                count(&mut counts.standing);
            }
        }
    }
    Ok(())
}

/// Looks whether the reason of every pair that does not stand is a strike of the pair, whose formula holds at its first
/// state and not at its second.
pub(crate) fn give_reasons<M: Machine, O: Order<Label = M::Label>>(
    heap: Global,
    on: &Setting<M, O>,
    page: &Page,
    relation: &Relation,
    counts: &mut Counts,
) -> Result<(), Fault> {
    let n = on.machine.count();
    let formulas = Formulas::new(heap, on.machine, page.strikes())?;
    let mut bytes = vec![in heap; 0u8; formulas.lines.len().saturating_mul(n)]?;
    evaluate(on.machine, on.order, &formulas.lines, &mut bytes)?;
    let rows = Rows {
        bytes: &bytes,
        width: n,
    };
    for s in 0..n {
        for t in (0..n).filter(|t| !relation.relates(s, *t)) {
            let strike = page.reason(on.machine, s, t)?;
            let tells = formulas
                .line_of(strike)
                .is_some_and(|line| rows.is_marked(line, s) && !rows.is_marked(line, t));
            if !strike.names(s, t) || !tells {
                return Err(Fault::Reason(s, t));
            }
            count(&mut counts.reasons);
        }
    }
    Ok(())
}
