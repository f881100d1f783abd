// Numbers kept in order at the front of an array: one put in between others, and some taken off the front.
#![tactic(auto)]

ghost use Rattle.std.specs.Prelude.{◌≡◌, ◌∷◌, ◌++◌, ◌-◌, length, take, drop};

// Puts v at place i: what stood there and behind it moves one up, and the last falls out. Past the end nothing changes.
// A number put at the end moves no other.
pub fn insert(a: &mut [u32], i: usize, v: u32)
    ensures { a.new ≡ take (length a.old) (take i a.old ++ v ∷ drop i a.old) }
{
    if a.len() <= i {
        return;
    }
    a.copy_within(i..a.len() - 1, i + 1);
    a[i] = v;
}

// Takes the first k off: the others move to the front, and the places that they leave keep what they held.
pub fn drop_front(a: &mut [u32], k: usize)
    ensures { a.new ≡ drop k a.old ++ drop (length a.old - k) a.old }
{
    if k == 0 || a.len() <= k {
        return;
    }
    a.copy_within(k.., 0);
}
