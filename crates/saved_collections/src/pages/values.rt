//! Whether a JSON value spells a snapshot of pages.
//!
//! Definitions: `Pages`. The snapshot's type is in `atlas_pages`.

ghost use Rattle.std.specs.Prelude.{◌≡◌, IsTrue, Some, codes};
ghost use Rattle.json.specs.Json.{string};
ghost use Rattle.json.specs.Value.{value_view};
ghost use Rattle.saved_json.specs.JsonFields.{field};
ghost use Rattle.saved_collections.specs.Pages.Values.{ArePages, HasPageOptions, choice_name};

use atlas_pages::{PageChoice, PageOptions, PagesSnapshot};
use json::Value;
use saved_json::{field, has_sides, holds_number, holds_records, holds_whole};

/// Whether a JSON value spells a snapshot of pages.
pub(crate) fn are_pages(json: &Value<'_>, snapshot: &PagesSnapshot) -> bool
    ensures { IsTrue result → ArePages (value_view json.now) snapshot.now }
{
    has_page_options(json, &snapshot.options)
        && holds_records(json, 9, 8, "pages", snapshot.pages.as_slice())
}

/// Whether the fields hold these options.
fn has_page_options(json: &Value<'_>, options: &PageOptions) -> bool
    ensures { IsTrue result → HasPageOptions (value_view json.now) options.now }
{
    let divided = options.atlas;
    has_sides(
        json,
        9,
        options.size,
        divided.alignment,
        divided.vertical_shelves,
    ) && holds_whole(json, 9, 5, "num_columns", divided.num_columns)
        && holds_number(json, 9, 6, "most_pages", u64::from(options.most_pages))
        && holds_choice(json, options.choice)
}

/// Whether the field of the choice holds the name of this one.
fn holds_choice(json: &Value<'_>, choice: PageChoice) -> bool
    ensures { IsTrue result → field 9 7 (codes "choice") (value_view json.now) ≡ Some (string (choice_name choice)) }
{
    let name = match choice {
        PageChoice::FirstFit => "first_fit",
        PageChoice::FullestFirst => "fullest_first",
    };
    match field(json, 9, 7, "choice") {
        Some(Value::String(text)) => *text == name,
        _ => false,
    }
}
