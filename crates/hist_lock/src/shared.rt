//! A lock and its passes cross threads where the machine may. The functions here are there to be compiled and proved, and do nothing.
use crate::pass::Pass;
use crate::table::HistLock;
use suri_base::Machine;

fn is_sent<T: Send>() {}

fn is_shared<T: Sync>() {}

// Where the machine may move to another thread, a lock and a pass may move there and may be shared with one.
fn lock_crosses<M: Machine + Send>()
where
    M::Note: Send,
{
    is_sent::<HistLock<M>>();
    is_shared::<HistLock<M>>();
    is_sent::<Pass<M>>();
    is_shared::<Pass<M>>();
}
