// One record on the bench.
ghost use Rattle.std.specs.Prelude.{◌≡◌};
ghost use Rattle.bench.specs.Fresh.{fresh_bench};
ghost use Rattle.bench.specs.Step.{with_controller, with_multiplexer, on_reset, on_cycle, on_fetches, on_levels, on_locate, on_event, step_of};

use alone::Told;
use answer::Answer;
use bodies::{ToldCycle, ToldLevels, bus_answer, levels_answer, located_answer, shown_answer};
use controller::Controller;
use locator::locate;
use multiplexer::Multiplexer;
use record::{Event, Record, decode, number};

#[derive(Clone, Copy)]
pub struct Bench {
    pub controller: Controller,
    pub multiplexer: Multiplexer,
}

// What a record leaves and what is answered.
#[derive(Clone, Copy)]
pub struct Stepped {
    pub bench: Bench,
    pub answer: Answer,
}

impl Bench {
    // Both chips as they start.
    pub fn fresh() -> Bench
        ensures { result ≡ fresh_bench }
    {
        Bench {
            controller: Controller::fresh(),
            multiplexer: Multiplexer::fresh(),
        }
    }

    fn with_controller(self, told: Told) -> Stepped
        ensures { result ≡ with_controller self told }
    {
        let Told { controller, answer } = told;
        Stepped {
            bench: Bench { controller, ..self },
            answer,
        }
    }

    fn with_multiplexer(self, multiplexer: Multiplexer, answer: Answer) -> Stepped
        ensures { result ≡ with_multiplexer self multiplexer answer }
    {
        Stepped {
            bench: Bench {
                multiplexer,
                ..self
            },
            answer,
        }
    }

    #[tactic(auto, using(basics::proofs::Cases::cases), unfolding(crate::specs::Step::on_reset))]
    fn on_reset(self, kind: u8, multiplexer: bool) -> Stepped
        ensures { result ≡ on_reset self kind multiplexer }
    {
        if multiplexer {
            self.with_multiplexer(self.multiplexer.reset(), Answer::plain(kind, 0))
        } else {
            self.with_controller(alone::on_reset(self.controller, kind))
        }
    }

    #[tactic(auto, unfolding(crate::specs::Step::on_cycle))]
    fn on_cycle(self, kind: u8, address: u16, read: bool) -> Stepped
        ensures { result ≡ on_cycle self kind address read }
    {
        let bused = self.multiplexer.bus(address, read);
        self.with_multiplexer(
            bused.multiplexer,
            bus_answer(kind, ToldCycle::from(bused.cycle)),
        )
    }

    #[tactic(auto, unfolding(crate::specs::Step::on_fetches))]
    fn on_fetches(self, kind: u8, n: u16) -> Stepped
        ensures { result ≡ on_fetches self kind n }
    {
        let multiplexer = self.multiplexer.fetches(n);
        self.with_multiplexer(multiplexer, shown_answer(kind, multiplexer.shown()))
    }

    #[tactic(auto, unfolding(crate::specs::Step::on_levels))]
    fn on_levels(self, kind: u8, hs: bool, da0: bool) -> Stepped
        ensures { result ≡ on_levels self kind hs da0 }
    {
        let levelled = self.multiplexer.levels(hs, da0);
        self.with_multiplexer(
            levelled.multiplexer,
            levels_answer(kind, ToldLevels::from(levelled)),
        )
    }

    #[tactic(auto, unfolding(crate::specs::Step::on_locate))]
    fn on_locate(self, kind: u8) -> Stepped
        ensures { result ≡ on_locate self kind }
    {
        Stepped {
            bench: self,
            answer: located_answer(kind, locate(self.controller)),
        }
    }

    // An event, on the one chip that it is for.
    #[tactic(auto, unfolding(crate::specs::Step::on_event))]
    fn on_event(self, kind: u8, event: Event) -> Stepped
        ensures { result ≡ on_event self kind event }
    {
        let c = self.controller;
        match event {
            Event::Write { rs, value } => {
                self.with_controller(alone::on_write(c, kind, rs, value))
            }
            Event::Read { rs } => self.with_controller(alone::on_read(c, kind, rs)),
            Event::Clocks { n } => self.with_controller(alone::on_clocks(c, kind, n)),
            Event::Strike => self.with_controller(alone::on_strike(c, kind)),
            Event::Reset { multiplexer } => self.on_reset(kind, multiplexer),
            Event::Cycle { address, read } => self.on_cycle(kind, address, read),
            Event::Fetches { n } => self.on_fetches(kind, n),
            Event::Levels { hs, da0 } => self.on_levels(kind, hs, da0),
            Event::Locate => self.on_locate(kind),
        }
    }

    // A record: its event is done, or the record is refused and both chips stay as they are.
    #[tactic(auto, unfolding(crate::specs::Step::step_of, crate::specs::Step::on_decoded))]
    pub fn step(self, sent: Record) -> Stepped
        ensures { result ≡ step_of self sent.kind sent.hi sent.lo sent.value }
    {
        let decoded = decode(sent);
        let Ok(event) = decoded else {
            return Stepped {
                bench: self,
                answer: Answer::plain(sent.kind, number(decoded)),
            };
        };
        self.on_event(sent.kind, event)
    }
}
