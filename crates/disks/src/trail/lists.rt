// Every list of eight sides. A trail holds numbers, so it lends its sides from here.
ghost use Rattle.std.specs.Prelude.{◌≡◌, ◌==◌, cond, [], ◌∷◌};

use crate::side::Side;

// For each word that is left: the lists that go on with side 0, then those that go on with side 1.
macro_rules! lists {
    ([$($side:expr),*]) => { [$($side),*] };
    ([$($side:expr),*] next $($left:tt)*) => {
        [
            lists!([$($side,)* Side::Zero] $($left)*),
            lists!([$($side,)* Side::One] $($left)*),
        ]
    };
}

// `LISTS[a][b][c][d][e][f][g][h]`, with 0 or 1 for each side, is the list of these eight.
pub(super) static LISTS: [[[[[[[[[Side; 8]; 2]; 2]; 2]; 2]; 2]; 2]; 2]; 2] =
    lists!([] next next next next next next next next);

// The first of two for the number 0, else the second.
pub(super) fn one_of<T>(two: &[T; 2], number: u8) -> &T
    ensures { (z o : T) → two.now ≡ z ∷ o ∷ [] → result.now ≡ cond (number == 0) z o }
{
    let [zero, one] = two;
    if number == 0 { zero } else { one }
}
