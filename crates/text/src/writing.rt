//! Machines written as texts.
ghost use Rattle.std.specs.Prelude.{◌≡◌, ◌+◌, ◌≤◌, ◌<◌, ◌++◌, ◌∷◌, ◌^◌, [], length, pos, option_map, IfSome};
ghost use Rattle.model.specs.Machines.{states};
ghost use Rattle.text.specs.Numbers.{items};
ghost use Rattle.text.specs.Writings.{WritesMachine, line, all_spelled, label_lines, step_lines_from, step_lines, machine_lines};
ghost use Rattle.text.specs.Laying.{laid, Lays, LaysIfSpelled};

use crate::fault::Fault;
use crate::label::Spelled;
use crate::word::Word;
use itoa::Buffer;
use model::{Machine, is_sized};

/// Memory into which a text is laid, as far as it goes.
#[derive(Drop)]
struct Pen<'a> {
    memory: &'a mut [u8],
    /// How long the text is so far.
    length: usize,
}

impl Pen<'_> {
    /// Bytes after those that are there.
    fn put(&mut self, bytes: &[u8])
        requires { self.old.length + length bytes.now < 2 ^ 63 }
        ensures { Lays self.old bytes.now self.new }
    {
        for byte in bytes {
            if self.length < self.memory.len() {
                self.memory[self.length] = *byte;
            }
            self.length += 1;
        }
    }

    /// Each number after a space.
    fn put_items(&mut self, numbers: &[i64])
        requires room { self.old.length < 2 ^ 62 }
        requires few { length numbers.now ≤ 3 }
        ensures laid { Lays self.old (items numbers.now) self.new }
        ensures short { self.new.length ≤ self.old.length + 63 }
    {
        for number in numbers {
            self.put(b" ");
            self.put(Buffer::new().format(*number).as_bytes());
        }
    }

    /// A line of a word, the number of a state or of states, and other numbers.
    fn put_line(&mut self, word: Word, first: usize, others: &[i64])
        requires room { self.old.length < 2 ^ 61 }
        requires fits { first < 2 ^ 63 }
        requires few { length others.now ≤ 3 }
        ensures { Lays self.old (line word (pos first ∷ others.now)) self.new }
    {
        self.put(b"(");
        self.put(word.letters());
        self.put_items(&[first as i64]);
        self.put_items(others);
        self.put(b")\n");
    }

    /// A line for each state's label, unless one cannot be written.
    fn put_labels<M: Machine, O: Spelled<Label = M::Label>>(
        &mut self,
        order: &O,
        machine: &M,
    ) -> Option<()>
        requires { self.old.length < 2 ^ 60 }
        ensures { LaysIfSpelled (all_spelled (O.Spelled.spelled order.now) (M.Machine.meaning machine.now).labels) (label_lines 0) self.old result self.new }
    {
        for s in 0..machine.count() {
            let numbers = order.numbers(&machine.label(s)?)?;
            self.put_line(Word::Label, s, &numbers);
        }
        Some(())
    }

    /// A line for each step from a state.
    fn put_steps_from<M: Machine>(&mut self, machine: &M, s: usize)
        requires room { self.old.length < 2 ^ 60 }
        requires state { s < states (M.Machine.meaning machine.now) }
        ensures { Lays self.old (step_lines_from (M.Machine.meaning machine.now).step s (states (M.Machine.meaning machine.now))) self.new }
    {
        for t in 0..machine.count() {
            if machine.has_step(s, t) {
                self.put_line(Word::Step, s, &[t as i64]);
            }
        }
    }

    /// A line for each step.
    fn put_steps<M: Machine>(&mut self, machine: &M)
        requires { self.old.length < 2 ^ 59 }
        ensures { Lays self.old (step_lines (M.Machine.meaning machine.now).step (states (M.Machine.meaning machine.now)) (states (M.Machine.meaning machine.now))) self.new }
    {
        for s in 0..machine.count() {
            self.put_steps_from(machine, s);
        }
    }

    /// The text of a machine, unless a label cannot be written.
    fn put_machine<M: Machine, O: Spelled<Label = M::Label>>(
        &mut self,
        order: &O,
        machine: &M,
    ) -> Option<()>
        requires { self.old.length < 2 ^ 58 }
        ensures { LaysIfSpelled (all_spelled (O.Spelled.spelled order.now) (M.Machine.meaning machine.now).labels) (machine_lines (M.Machine.meaning machine.now)) self.old result self.new }
    {
        self.put_line(Word::Machine, machine.count(), &[]);
        self.put_labels(order, machine)?;
        self.put_steps(machine);
        Some(())
    }
}

/// Lays the text of a machine into memory as far as it goes, and answers its length, unless a label cannot be written.
fn lay_machine<M: Machine, O: Spelled<Label = M::Label>>(
    order: &O,
    machine: &M,
    out: &mut [u8],
) -> Option<usize>
    ensures answer { result ≡ option_map (λ labels. length (machine_lines (M.Machine.meaning machine.now) labels)) (all_spelled (O.Spelled.spelled order.now) (M.Machine.meaning machine.now).labels) }
    ensures memory { IfSome (all_spelled (O.Spelled.spelled order.now) (M.Machine.meaning machine.now).labels) (λ labels. out.new ≡ laid out.old 0 (machine_lines (M.Machine.meaning machine.now) labels)) }
{
    let mut pen = Pen {
        memory: out,
        length: 0,
    };
    pen.put_machine(order, machine)?;
    Some(pen.length)
}

/// Writes a machine as a text, and answers the text's length. Memory past the text is untouched, and all of it by a refusal:
/// of a label that cannot be written, then of no states or too many, then of memory too short for the text. A band with its
/// low above its high cannot be written, nor, under a `TextOrder` of one base, a label whose other part is not empty.
pub fn write_machine<M: Machine, O: Spelled<Label = M::Label>>(
    order: &O,
    machine: &M,
    out: &mut [u8],
) -> Result<usize, Fault>
    ensures { WritesMachine (O.Spelled.spelled order.now) (M.Machine.meaning machine.now) out.old result out.new }
{
    // Into no memory, a text is only measured.
    let size = lay_machine(order, machine, &mut []).ok_or(Fault::WrongItems)?;
    if !is_sized(machine.count()) {
        return Err(Fault::WrongCount);
    }
    if out.len() < size {
        return Err(Fault::ShortMemory);
    }
    lay_machine(order, machine, out);
    Ok(size)
}
