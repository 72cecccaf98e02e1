// The replies where an edit, or the text of a search, is refused.
ghost use Rattle.std.specs.Prelude.{◌≡◌, ◌++◌, IfOk};
ghost use Rattle.shell_replies.specs.Faults.{edit_fault_text, warm_fault_text};

use model_edits::EditFault;
use reply_texts::{
    MEMORY_REPLY, write_bounds, write_faulty_search, write_limit, write_sides, write_taken,
    write_unknown_name,
};
use std::alloc::AllocError;
use warm_file::WarmFault;

/// Which fault an edit has.
pub fn write_edit_fault(reply: &mut Vec<u8>, fault: &EditFault) -> Result<(), AllocError>
    ensures { IfOk result (λ _. reply.new.items ≡ reply.old.items ++ edit_fault_text fault.now) }
{
    match fault {
        EditFault::NoSuch(name) => write_unknown_name(reply, name.as_slice()),
        EditFault::Duplicate(name) => write_taken(reply, name.as_slice()),
        EditFault::Limit(limit) => write_limit(reply, *limit),
        EditFault::IntegerUnbounded(name) => write_bounds(reply, name.as_slice()),
        EditFault::Ranged(name) => write_sides(reply, name.as_slice()),
        EditFault::Memory => reply.extend_from_slice(MEMORY_REPLY),
    }
}

/// Why a text states no search.
pub fn write_warm_fault(reply: &mut Vec<u8>, fault: WarmFault) -> Result<(), AllocError>
    ensures { IfOk result (λ _. reply.new.items ≡ reply.old.items ++ warm_fault_text fault) }
{
    match fault {
        WarmFault::Bad { place, code } => write_faulty_search(reply, place.as_slice(), code),
        WarmFault::Memory => reply.extend_from_slice(MEMORY_REPLY),
    }
}
