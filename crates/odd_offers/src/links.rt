ghost use Rattle.std.specs.Prelude.{◌≡◌, [], unwrap_or};
ghost use Rattle.std.specs.Option.{option_copied};
ghost use Rattle.odd_meaning.specs.Offering.{edits_of as the_edits_of};

use odd_attributes::AttEdits;
use odd_library::Component;

/// The edits of attributes of a component, where it is an element or a class.
pub fn edits_of(part: &Component) -> Option<&AttEdits>
    ensures { unwrap_or (option_copied result) [] ≡ the_edits_of part.now }
{
    match part {
        Component::Element(part) => Some(&part.atts),
        Component::Class(part) => Some(&part.atts),
        Component::Macro(_) | Component::Datatype(_) => None,
    }
}
