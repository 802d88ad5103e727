//! The machines that the two are set against each other on, and under which orders.
use crate::choices::{Choices, Digits, Random};
use crate::counts::{Counts, count};
use crate::cross::cross;
use crate::fault::Fault;
use crate::sample::{Sample, Shape};
use model::{Exact, FlagSet, Flags, Machine, Order, Turned};
use sheet::Setting;
use std::alloc::{AllocError, Global};

/// How many machines are made by random choices.
const RANDOM_MACHINES: usize = 4000;

/// Where the random choices begin.
const SEED: u64 = 1;

/// Why it ends early: memory ran out, or there is a difference, told by a line.
#[derive(Drop)]
pub(crate) enum Stop {
    Memory(AllocError),
    Differs(String),
}

impl From<AllocError> for Stop {
    fn from(error: AllocError) -> Stop {
        Stop::Memory(error)
    }
}

/// Machine after machine; random choices are drawn, and what is compared is counted.
#[derive(Drop)]
pub(crate) struct Crossing {
    heap: Global,
    random: Random,
    counts: Counts,
}

impl Crossing {
    /// All machines of up to three states with two kinds of labels, then random ones, and the one that takes many rounds.
    pub(crate) fn whole(heap: Global) -> Result<Counts, Stop> {
        let mut crossing = Crossing {
            heap,
            random: Random { state: SEED },
            counts: Counts::default(),
        };
        for (states, machines) in [(1, 4), (2, 64), (3, 4096)] {
            crossing.cross_counted(states, machines)?;
        }
        crossing.cross_random(RANDOM_MACHINES)?;
        crossing.cross_sample(&Sample::slow(heap)?)?;
        Ok(crossing.counts)
    }

    /// The first machines of so many states, in the order of counting.
    fn cross_counted(&mut self, states: usize, machines: usize) -> Result<(), Stop> {
        let shape = Shape {
            states,
            kinds: 2,
            sparsity: 2,
        };
        for number in 0..machines {
            let sample = Sample::new(self.heap, &shape, &mut Digits { rest: number })?;
            self.cross_sample(&sample)?;
        }
        Ok(())
    }

    /// Machines of one state to eight, with two or three kinds of labels; every second step is there, or fewer.
    fn cross_random(&mut self, machines: usize) -> Result<(), Stop> {
        for _ in 0..machines {
            let shape = Shape {
                states: 1 + self.random.pick(8),
                kinds: 2 + self.random.pick(2),
                sparsity: 2 + self.random.pick(6),
            };
            let sample = Sample::new(self.heap, &shape, &mut self.random)?;
            self.cross_sample(&sample)?;
        }
        Ok(())
    }

    /// A machine, under each order.
    fn cross_sample(&mut self, sample: &Sample) -> Result<(), Stop> {
        count(&mut self.counts.machines);
        self.cross_under(sample, "flags", &Flags {})?;
        self.cross_under(sample, "exact", &Exact { inner: Flags {} })?;
        self.cross_under(sample, "turned", &Turned { inner: Flags {} })
    }

    /// A machine, under an order of this name.
    fn cross_under<O: Order<Label = FlagSet>>(
        &mut self,
        sample: &Sample,
        name: &str,
        order: &O,
    ) -> Result<(), Stop> {
        let machine = &sample.table();
        let tries = self.random.pairs(self.heap, machine.count())?;
        let on = Setting { machine, order };
        match cross(self.heap, &on, &tries, &mut self.counts) {
            Ok(()) => Ok(()),
            Err(Fault::Memory(error)) => Err(Stop::Memory(error)),
            Err(fault) => Err(Stop::Differs(format!(in self.heap;
                "(differs {name} ({fault}) {sample})\n"
            )?)),
        }
    }
}
