// Leaves that every layer uses: what a flag says, and the front of a lent list.
#![tactic(auto)]

ghost use Rattle.std.specs.Prelude.{◌≡◌, take};
ghost use Rattle.basics.specs.Basics.{is_set as «is_set_of»};

// A number that isn't 0 is yes.
pub fn is_set(word: u32) -> bool
    ensures { result ≡ «is_set_of» word }
{
    word != 0
}

// What stands at the front of a list: no more than it has.
pub fn front<T>(items: &[T], n: usize) -> &[T]
    ensures { result.now ≡ take n items.now }
{
    &items[..n.min(items.len())]
}
