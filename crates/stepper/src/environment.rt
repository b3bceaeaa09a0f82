// What a run is given besides registers, memory and budget (document 02, e). Later requests add to it.
#[derive(Clone, Copy)]
pub struct Environment {
    pub home: u16, // the address at which it ends
}
