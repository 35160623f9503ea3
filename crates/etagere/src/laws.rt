//! What the laws of restoring are stated of, for both atlases: the form of `restore` that counts its steps, the walks by
//! which it follows links, and saving and restoring in one call. Public, but not meant for users.

pub use etagere_bucketed::laws::{
    records_stand_for_one_state as bucketed_records_stand_for_one_state, restore_bucketed,
    saved_and_restored as bucketed_saved_and_restored,
};
pub use etagere_links::{Walk, walk};
pub use etagere_shelves::laws::{records_stand_for_one_state, restore_atlas, saved_and_restored};
