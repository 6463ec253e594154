// The arguments of a call by their places.
ghost use Rattle.std.specs.Prelude.{◌≡◌, []};
ghost use Rattle.fn_lib.specs.Values.{argument};

use xdm_items::ItemList;

/// The argument at the place, from 0, and the empty list where there is none (XPath 2.0, 3.1.5).
pub fn argument<'a>(args: &'a [ItemList], place: usize, none: &'a ItemList) -> &'a ItemList
    requires { none.now ≡ [] }
    ensures { result.now ≡ argument args.now place }
{
    match args.get(place) {
        Some(items) => items,
        None => none,
    }
}
