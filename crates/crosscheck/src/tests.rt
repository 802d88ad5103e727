//! What the cross-check tells where the two differ. A sheet is set against the relation of another machine, and reasons are
//! evaluated under another order.
use crate::counts::Counts;
use crate::cross::{compare, give_reasons};
use crate::fault::Fault;
use crate::page::Page;
use model::{FlagSet, Flags, Order, Table, Turned};
use second::Relation;
use sheet::Setting;
use std::alloc::{AllocError, Global};
use std::test::Fail;

/// Labels of two states without steps: each can stand in for the other.
const ALIKE: [FlagSet; 2] = [FlagSet { bits: 1 }, FlagSet { bits: 1 }];

/// The second can stand in for the first, and not the first for the second.
const RISING: [FlagSet; 2] = [FlagSet { bits: 1 }, FlagSet { bits: 3 }];

/// Neither can stand in for the other.
const APART: [FlagSet; 2] = [FlagSet { bits: 1 }, FlagSet { bits: 2 }];

const NO_STEPS: [u8; 4] = [0; 4];

/// The words of a fault, or none.
fn told(heap: Global, found: Result<(), Fault>) -> Result<String, AllocError> {
    match found {
        Ok(()) => Ok(String::new(heap)),
        Err(fault) => fault.to_string(heap),
    }
}

/// Sets the sheet of one machine against the relation of another.
fn difference(heap: Global, sheet: &[FlagSet], relation: &[FlagSet]) -> Result<(), Fault> {
    let machine = Table::new(sheet, &NO_STEPS);
    let on = Setting {
        machine: &machine,
        order: &Flags {},
    };
    let page = Page::settled(heap, &on, &[])?;
    let relation = Relation::largest(heap, &Table::new(relation, &NO_STEPS), &Flags {})?;
    compare(&machine, &page, &relation, &mut Counts::default())
}

/// Evaluates the reasons of a sheet under another order than its own.
fn reasons_under<O: Order<Label = FlagSet>>(heap: Global, order: &O) -> Result<(), Fault> {
    let machine = Table::new(&RISING, &NO_STEPS);
    let on = Setting {
        machine: &machine,
        order: &Flags {},
    };
    let page = Page::settled(heap, &on, &[])?;
    let relation = Relation::largest(heap, &machine, &Flags {})?;
    let other = Setting {
        machine: &machine,
        order,
    };
    give_reasons(heap, &other, &page, &relation, &mut Counts::default())
}

#[test]
fn differences_are_told(rt: HostRuntime) -> Result<(), Fail> {
    let heap = rt.alloc();
    for (sheet, relation, fault) in [
        (RISING, RISING, ""),
        (RISING, APART, "standing 0 1"),
        (APART, ALIKE, "standing 0 1"),
        (RISING, ALIKE, "class 1"),
    ] {
        let words = told(heap, difference(heap, &sheet, &relation))?;
        assert_eq!(rt; words.as_str(), fault);
    }
    Ok(())
}

#[test]
fn a_formula_that_holds_at_both_states_is_no_reason(rt: HostRuntime) -> Result<(), Fail> {
    let heap = rt.alloc();
    let own = told(heap, reasons_under(heap, &Flags {}))?;
    assert_eq!(rt; own.as_str(), "");
    let turned = told(heap, reasons_under(heap, &Turned { inner: Flags {} }))?;
    assert_eq!(rt; turned.as_str(), "reason 1 0");
    Ok(())
}
