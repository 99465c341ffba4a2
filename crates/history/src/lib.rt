// The law of whole histories over an abstract machine. What is meant stands in specs/: Events, Machine, Promise, then what a machine has to
// show, by steps in Laws and by machine cycles in Cycles.
#![tactic(auto)]

ghost use Rattle.std.specs.Prelude.{ℕ};
ghost use Rattle.history.specs.Machine.{Machine};
ghost use Rattle.history.specs.Laws.{View, MachineLaw, Kept};
ghost use Rattle.history.specs.Cycles.{Parts, machine, Quiet, PartsLaw};

pub mod small;

// A machine that keeps the laws of one accepted step and of reset. Its highest level is `highest`, no instruction has more than `longest`
// cycles, and none that does not poll has more than `unpolled`. `Sound` holds of every state that it can reach.
pub trait Stepped {
    ghost State: { Type 0 };

    ghost machine: { Machine State };

    ghost view: { State → View };

    ghost Sound: { State → Type 0 };

    ghost highest: { ℕ };

    ghost longest: { ℕ };

    ghost unpolled: { ℕ };

    ghost keeps: { MachineLaw machine view highest longest unpolled Sound };
}

// Every such machine keeps the promise of whole histories: how long a request waits, what stands between two vector calls, what MOVX reads.
pub fn steps_keep_promise<T: Stepped>(_machine: &T)
    ensures { Kept T.Stepped.machine T.Stepped.view T.Stepped.highest T.Stepped.longest T.Stepped.unpolled T.Stepped.Sound }
{}

// A machine whose step changes the state once and then runs machine cycles, and whose parts keep their laws. No instance of Stepped, since
// its laws are others: those of steps are proved from them.
pub trait Cycled {
    ghost State: { Type 0 };

    ghost parts: { Parts State };

    ghost highest: { ℕ };

    ghost longest: { ℕ };

    ghost unpolled: { ℕ };

    ghost keeps: { PartsLaw parts highest longest unpolled };
}

// Every such machine keeps the promise from any state in which nothing is accepted and nothing enabled, as in a new core and after a reset.
pub fn cycles_keep_promise<T: Cycled>(_machine: &T)
    ensures { Kept (machine T.Cycled.parts) T.Cycled.parts.view T.Cycled.highest T.Cycled.longest T.Cycled.unpolled (λ w. Quiet (T.Cycled.parts.view w)) }
{}
