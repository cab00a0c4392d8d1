// The calls that are one step on the tables (lib.rs), as one type.

#![tactic(auto)]

use region::AccessRights;
use send_options::SendOptions;
use tables::Handle;

// A part of the region in `local`, with its range and rights.
#[derive(Clone, Copy)]
pub struct Child {
    pub domain: Handle,
    pub local: usize,
    pub access: AccessRights,
}

// The constructors are the model's, in its order; an opening has a manager or none.
#[derive(Clone, Copy)]
pub enum Call {
    Open(u64),
    OpenUnder(Handle, u64),
    Channel(Handle, Handle),
    SetCoreMap(Handle, u64),
    SetInterface(Handle, u64),
    FreezeInterface(Handle),
    Root(Handle, AccessRights),
    Alias(Child),
    Carve(Child),
    Send(Handle, usize, usize, SendOptions),
    Revoke(Handle, usize),
    CreateRevokeCapa(Handle, usize),
}
