// Where the parts of a table lie in its bytes, for the code. specs/Layout.antt states the layout.
use crate::object_bytes::{OBJECT_REVISION, OBJECT_SIZE};
use crate::thread_bytes::{THREAD_REVISION, THREAD_SIZE};
use lock_table::{OBJECTS, THREADS};

pub const LAYOUT_VERSION: u32 = 1 + THREAD_REVISION + OBJECT_REVISION;

pub const THREADCOUNT_AT: usize = 0;

pub const OBJECTCOUNT_AT: usize = 1;

pub const THREADS_START: usize = 2;

pub const OBJECTS_START: usize = THREADS_START + THREADS as usize * THREAD_SIZE;

pub const TABLE_SIZE: usize = OBJECTS_START + OBJECTS as usize * OBJECT_SIZE;
