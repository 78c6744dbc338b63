//! What a plan builder's refusals are in a file.

ghost use Rattle.std.specs.Prelude.{◌≡◌};
ghost use Rattle.device_file.specs.Refusals.{adding_fault, cluster_fault, control_fault, handler_fault, item_fault, refused};

use crate::stop::ReadError;
use ctrl_handlers::PlanFault;
use file_faults::{Key, KeyFault, Problem};

// Of a further handler.
pub(crate) fn refused_handler(fault: PlanFault) -> ReadError
    ensures { result ≡ refused handler_fault fault }
{
    match fault {
        PlanFault::Memory => ReadError::Memory,
        _ => ReadError::Key(KeyFault::new(Key::Table, Problem::ManyHandlers)),
    }
}

// Of the handler that an element of `adds` names.
pub(crate) fn refused_adding(fault: PlanFault, place: usize) -> ReadError
    ensures { result ≡ refused (adding_fault place) fault }
{
    match fault {
        PlanFault::Memory => ReadError::Memory,
        _ => ReadError::Key(KeyFault::of_element(Key::Adds, place, Problem::UnknownHandler)),
    }
}

// Of a further control.
pub(crate) fn refused_control(fault: PlanFault) -> ReadError
    ensures { result ≡ refused control_fault fault }
{
    match fault {
        PlanFault::Memory => ReadError::Memory,
        PlanFault::DuplicateId => ReadError::Key(KeyFault::new(Key::Id, Problem::IdTaken)),
        _ => ReadError::Key(KeyFault::new(Key::Table, Problem::ManyControls)),
    }
}

// Of the item at an index; this is wrong where the control doesn't take it.
pub(crate) fn refused_item(fault: PlanFault, index: u32, misfit: Problem) -> ReadError
    ensures { result ≡ refused (item_fault index misfit) fault }
{
    let problem = match fault {
        PlanFault::Memory => return ReadError::Memory,
        PlanFault::Limit => Problem::LongItem,
        _ => misfit,
    };
    ReadError::Key(KeyFault::of_element(Key::Menu, index as usize, problem))
}

// Of a further cluster; each member was judged before.
pub(crate) fn refused_cluster(fault: PlanFault) -> ReadError
    ensures { result ≡ refused cluster_fault fault }
{
    match fault {
        PlanFault::Memory => ReadError::Memory,
        PlanFault::ClusterSize => ReadError::Key(KeyFault::new(Key::Members, Problem::ClusterSize)),
        PlanFault::ArrayAlone => ReadError::Key(KeyFault::new(Key::Members, Problem::ArrayAlone)),
        _ => ReadError::Key(KeyFault::new(Key::Members, Problem::NamedTwice)),
    }
}
