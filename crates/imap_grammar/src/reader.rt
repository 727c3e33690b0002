// The feed as a reader of units.
ghost use Rattle.imap_grammar.specs.Reader.{none_at_first};
ghost use Rattle.imap_grammar.specs.Sound.{IsSound};
ghost use Rattle.imap_grammar.specs.Taken.{HasTaken};
ghost use Rattle.imap_grammar.specs.Units.{units_of};
ghost use Rattle.raw_commands.specs.Streams.{unfinished};

use crate::feed::Feed;
use crate::unit::Unit;
use std::alloc::{AllocError, Global};
use unit_reader::UnitReader;

impl UnitReader for Feed {
    type Unit = Unit;

    ghost units_of = { units_of };

    ghost unfinished = { unfinished };

    ghost is_sound = { IsSound };

    ghost has_taken = { HasTaken };

    ghost none_at_first = { none_at_first };

    fn begin(alloc: Global) -> Feed {
        Feed::new(alloc)
    }

    fn take_piece(&mut self, piece: &[u8], units: &mut Vec<Unit>) -> Result<(), AllocError> {
        self.take(piece, units)
    }

    fn is_between(&self) -> bool {
        self.at_rest()
    }
}
