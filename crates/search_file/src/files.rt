// Searches as texts.
ghost use Rattle.std.specs.Prelude.{◌≡◌, IfOk};
ghost use Rattle.search_file.specs.Saved.{saved_data};
ghost use Rattle.warm_writer.specs.Writable.{IsWritable};
ghost use Rattle.search_file.specs.Files.{own_text, IsTextOf, IsSearchFound};

use crate::restoring::search_of;
use crate::saving::data_of;
use std::alloc::{AllocError, Global};
use tree_edit::Search;
use warm_file::{WarmFault, read};
use warm_writer::write;

/// The text of a search: its model, its cuts, its points, and its nodes in preorder with their lists and states. Where the data of
/// the search is writable the text states it, and no other.
pub fn text_of(alloc: Global, search: &Search) -> Result<Vec<u8>, AllocError>
    ensures text { IfOk result (λ text. text.items ≡ own_text search.now) }
    ensures states { IsWritable (saved_data search.now) → IfOk result (λ text. IsTextOf search.now text.items) }
{
    let stated = data_of(alloc, search)?;
    let written = write(alloc, &stated);
    drop(stated);
    written
}

/// The search that a text states, or the first fault of the text. Nothing in it is believed but the model: cuts are derived, points
/// are tested and leaves are judged at that model.
pub fn search_in(alloc: Global, text: &[u8]) -> Result<Search, WarmFault>
    ensures { IsSearchFound text.now result }
{
    match read(alloc, text) {
        Ok(stated) => match search_of(alloc, stated) {
            Ok(search) => Ok(search),
            Err(AllocError) => Err(WarmFault::Memory),
        },
        Err(fault) => Err(fault),
    }
}
