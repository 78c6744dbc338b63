ghost use Rattle.std.specs.Prelude.{◌≡◌, true, OnOk};
ghost use Rattle.ctl_script.specs.Bindings.{Bound, unbound, with_id, is_bound, ids_in, bound_names};
ghost use Rattle.ctl_script.specs.Asks.{fh_bound, request_bound};
ghost use Rattle.script_lines.specs.declared.name.Name.{Name};

use ctrl_types::{FhId, RequestId};
use indexmap::IndexMap;
use script_lines::Name;
use std::alloc::{AllocError, Global};

/// The id of every name that isn't bound; no file handle and no request has it.
pub const UNBOUND: u32 = 4_294_967_295;

/// What the names of one kind stand for.
#[derive(Drop)]
pub struct Names {
    ids: IndexMap<Name, u32>,
}

impl Names {
    /// No name is bound.
    pub fn new(alloc: Global) -> Names
        ensures { (name : Name) → ids_in result name ≡ 4294967295 }
    {
        Names {
            ids: IndexMap::new(alloc),
        }
    }

    /// The id that a name stands for.
    pub fn id_of(&self, name: Name) -> u32
        ensures { result ≡ ids_in self.now name }
    {
        self.ids.get(&name).copied().unwrap_or(UNBOUND)
    }

    /// Makes room for a binding of the name, and leaves what each name stands for.
    pub fn enter(&mut self, name: Name) -> Result<(), AllocError>
        ensures ids { (other : Name) → ids_in self.new other ≡ ids_in self.old other }
        ensures kept { (other : Name) → is_bound self.old other ≡ true → is_bound self.new other ≡ true }
        ensures entered { OnOk result (is_bound self.new name ≡ true) }
    {
        if !self.ids.contains_key(&name) {
            self.ids.insert(name, UNBOUND)?;
        }
        Ok(())
    }

    /// Binds a name that was entered to an id. It takes no memory.
    pub fn bind(&mut self, name: Name, id: u32)
        requires { is_bound self.old name ≡ true }
        ensures ids { (other : Name) → ids_in self.new other ≡ with_id name id (ids_in self.old) other }
        ensures kept { (other : Name) → is_bound self.old other ≡ true → is_bound self.new other ≡ true }
    {
        // its key is there, so it takes no room
        let _ = self.ids.insert(name, id);
    }
}

/// The names of a script. File handles and requests have separate ones.
#[derive(Drop)]
pub struct Bindings {
    /// What stands for a file handle.
    pub file_handles: Names,
    /// What stands for a request.
    pub requests: Names,
}

impl Bindings {
    /// No name is bound.
    pub fn new(alloc: Global) -> Bindings
        ensures { bound_names result ≡ unbound }
    {
        Bindings {
            file_handles: Names::new(alloc),
            requests: Names::new(alloc),
        }
    }

    /// The file handle that a name stands for.
    pub fn fh(&self, name: Name) -> FhId
        ensures { result ≡ fh_bound (bound_names self.now) name }
    {
        FhId(self.file_handles.id_of(name))
    }

    /// The request that a name stands for.
    pub fn request(&self, name: Name) -> RequestId
        ensures { result ≡ request_bound (bound_names self.now) name }
    {
        RequestId(self.requests.id_of(name))
    }
}
