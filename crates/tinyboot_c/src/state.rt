// A state in the caller's bytes.
ghost use Rattle.std.specs.Prelude.{◌≡◌};
ghost use Rattle.std.proofs.Math.Seq.{paste};
ghost use Rattle.c_layout.specs.Layout.{number_bytes, numbers_from};

use crate::layout::four;
use c_layout::{CLOSED, FILL, GOT, NEXT, SELECTED, STATE_SIZE, number_bytes};
use device_state::Numbers;

// An app's numbers (c_app) are others, at other places.
pub(crate) fn numbers_from(s: &[u8; STATE_SIZE]) -> Numbers
    ensures { result ≡ numbers_from 52 64 s.now }
{
    Numbers {
        got: usize::from(s[GOT]),
        fill: usize::from(s[FILL]),
        next: four(s, NEXT),
        selected: s[SELECTED] == 1,
        closed: s[CLOSED] == 1,
    }
}

// What a state has beside its arrays, laid where it stands.
pub(crate) fn lay_numbers(s: &mut [u8; STATE_SIZE], n: Numbers)
    ensures { s.new ≡ paste s.old 128 (number_bytes n) 8 }
{
    s[NEXT..].copy_from_slice(&number_bytes(n));
}
