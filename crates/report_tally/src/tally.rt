// The tally of a run: the enters finished for each object and in all, the largest number of objects, and the lines read.
ghost use Rattle.std.specs.Prelude.{◌≡◌};
ghost use Rattle.report_tally.specs.Tally.{one_more, with_enter, no_figures, fresh_tally};

use crate::way::Way;
use replay_text::Figures;

// Lines that a run may hold, headers not counted.
pub const MOST_LINES: u16 = 60000;

#[derive(Clone, Copy)]
pub struct Tally {
    // lines that are no headers, up to one more than a run may hold, which ends the run
    pub lines: u16,
    // the largest number of objects that a good header gave
    pub largest: u8,
    // the report has been printed
    pub printed: bool,
    pub all: Figures,
    pub objects: [Figures; 64],
}

fn no_figures() -> Figures
    ensures { result ≡ no_figures }
{
    Figures {
        anonymous: 0,
        reserved: 0,
        free: 0,
        nested: 0,
        monitor: 0,
    }
}

pub fn fresh_tally() -> Tally
    ensures { result ≡ fresh_tally }
{
    Tally {
        lines: 0,
        largest: 0,
        printed: false,
        all: no_figures(),
        objects: [no_figures(); 64],
    }
}

// A figure stops at the lines that a run may hold. In a run none is stopped: each enter that finishes has a line of its own.
#[tactic(auto, unfolding(crate::specs::Tally::one_more))]
fn one_more(figure: u16) -> u16
    ensures { result ≡ one_more figure }
{
    if figure < MOST_LINES {
        figure + 1
    } else {
        figure
    }
}

// The figures with one enter more that finished this way.
#[tactic(auto, unfolding(crate::specs::Tally::with_enter))]
pub fn with_enter(figures: Figures, way: Way) -> Figures
    ensures { result ≡ with_enter figures way }
{
    match way {
        Way::NoEnter => figures,
        Way::Anonymous => Figures {
            anonymous: one_more(figures.anonymous),
            ..figures
        },
        Way::Reserved => Figures {
            reserved: one_more(figures.reserved),
            ..figures
        },
        Way::Free => Figures {
            free: one_more(figures.free),
            ..figures
        },
        Way::Nested => Figures {
            nested: one_more(figures.nested),
            ..figures
        },
        Way::Monitor => Figures {
            monitor: one_more(figures.monitor),
            ..figures
        },
    }
}
