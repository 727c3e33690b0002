// The feed as a reader of units.
ghost use Rattle.std.specs.Prelude.{refl};
ghost use Rattle.command_lines.specs.Taken.{HasTaken};
ghost use Rattle.command_lines.specs.Stream.{units_of, unfinished};

use crate::Line;
use crate::feed::Feed;
use std::alloc::{AllocError, Global};
use unit_reader::UnitReader;

impl UnitReader for Feed {
    type Unit = Line;

    ghost units_of = { units_of };

    ghost unfinished = { unfinished };

    // A line may have any bytes.
    ghost is_sound = { λ line. Unit {0} };

    ghost has_taken = { HasTaken };

    ghost none_at_first = { refl };

    fn begin(alloc: Global) -> Feed {
        Feed::new(alloc)
    }

    fn take_piece(&mut self, piece: &[u8], units: &mut Vec<Line>) -> Result<(), AllocError> {
        self.take(piece, units)
    }

    fn is_between(&self) -> bool {
        self.at_rest()
    }
}
