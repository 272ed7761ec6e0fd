//! Lists that are searched from their front.

ghost use Rattle.std.specs.Prelude.{◌≡◌, Bool};
ghost use Rattle.std.specs.Option.{option_map};
ghost use Rattle.std.specs.List.{find};
ghost use Rattle.pt_signal.specs.Values.{without_first};
ghost use Rattle.pt_judge.specs.Places.{first_place};

/// What is looked for in a list.
pub(crate) trait Test<T> {
    ghost passes: { Self → T → Bool };

    fn passes(&self, item: &T) -> bool
        ensures { result ≡ passes self.now item.now };
}

/// The place of the first that passes, or the length of the list.
pub(crate) fn place_of<T, K: Test<T>>(list: &[T], test: &K) -> usize
    ensures { result ≡ first_place (K.passes test.now) list.now }
{
    for place in 0..list.len() {
        if test.passes(&list[place]) {
            return place;
        }
    }
    list.len()
}

/// The first that passes.
pub(crate) fn first<'a, T, K: Test<T>>(list: &'a [T], test: &K) -> Option<&'a T>
    ensures { option_map (λ item. item.now) result ≡ find (K.passes test.now) list.now }
{
    let place = place_of(list, test);
    if place < list.len() {
        Some(&list[place])
    } else {
        None
    }
}

/// A copy of the first that passes.
pub(crate) fn find<T: Copy, K: Test<T>>(list: &[T], test: &K) -> Option<T>
    ensures { result ≡ find (K.passes test.now) list.now }
{
    first(list, test).copied()
}

/// Takes out the first that passes.
pub(crate) fn take_out<T: Drop, K: Test<T>>(list: &mut Vec<T>, test: &K)
    ensures { list.new.items ≡ without_first (K.passes test.now) list.old.items }
{
    let place = place_of(list.as_slice(), test);
    if place < list.len() {
        let _ = list.remove(place);
    }
}
