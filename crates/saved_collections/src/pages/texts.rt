//! What serde reads and writes of pages. Whether it did is seen by holding the pages against the text.

use atlas_pages::{PageChoice, PageOptions, PagesSnapshot};
use etagere_shelves::{AllocatorOptions, AtlasSnapshot, Size};
use serde::{Deserialize, Serialize};
use std::alloc::{AllocError, Global};

/// The name of a choice.
#[derive(Clone, Copy, Serialize, Deserialize)]
#[serde(rename_all = "snake_case")]
enum ChoiceText {
    FirstFit,
    FullestFirst,
}

/// What is read of pages.
#[derive(Drop, Deserialize)]
pub(crate) struct ReadPages {
    width: i32,
    height: i32,
    alignment_width: i32,
    alignment_height: i32,
    vertical_shelves: bool,
    num_columns: i32,
    most_pages: u32,
    choice: ChoiceText,
    pages: Vec<AtlasSnapshot>,
}

impl ReadPages {
    /// The same as a snapshot.
    pub(crate) fn snapshot(self) -> PagesSnapshot {
        let options = PageOptions {
            size: Size {
                width: self.width,
                height: self.height,
            },
            atlas: AllocatorOptions {
                alignment: Size {
                    width: self.alignment_width,
                    height: self.alignment_height,
                },
                vertical_shelves: self.vertical_shelves,
                num_columns: self.num_columns,
            },
            most_pages: self.most_pages,
            choice: match self.choice {
                ChoiceText::FirstFit => PageChoice::FirstFit,
                ChoiceText::FullestFirst => PageChoice::FullestFirst,
            },
        };
        PagesSnapshot {
            options,
            pages: self.pages,
        }
    }
}

/// What is written of pages.
#[derive(Drop, Serialize)]
struct WrittenPages<'a> {
    width: i32,
    height: i32,
    alignment_width: i32,
    alignment_height: i32,
    vertical_shelves: bool,
    num_columns: i32,
    most_pages: u32,
    choice: ChoiceText,
    pages: &'a [AtlasSnapshot],
}

/// The text of a snapshot.
pub(crate) fn text_of(alloc: Global, snapshot: &PagesSnapshot) -> Result<Vec<u8>, AllocError> {
    let PageOptions {
        size,
        atlas,
        most_pages,
        choice,
    } = snapshot.options;
    let written = WrittenPages {
        width: size.width,
        height: size.height,
        alignment_width: atlas.alignment.width,
        alignment_height: atlas.alignment.height,
        vertical_shelves: atlas.vertical_shelves,
        num_columns: atlas.num_columns,
        most_pages,
        choice: match choice {
            PageChoice::FirstFit => ChoiceText::FirstFit,
            PageChoice::FullestFirst => ChoiceText::FullestFirst,
        },
        pages: snapshot.pages.as_slice(),
    };
    serde_json::to_vec(alloc, &written).map_err(|_| AllocError)
}
