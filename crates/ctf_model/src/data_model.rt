//! The data model of a program: the size of its pointers.

/// The number of bytes of a pointer: 8 under LP64, 4 under ILP32 (libctf(3LIB), `ctf_setmodel`).
#[derive(Clone, Copy, Debug, PartialEq, Eq)]
pub enum DataModel {
    Lp64,
    Ilp32,
}
