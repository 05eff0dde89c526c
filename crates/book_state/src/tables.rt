//! The tables that are keyed by texts from files.

use name_map::NameMap;
use stat_defs::{Kind, Txt};

/// What a metric is known by.
#[derive(Drop, PartialEq, Eq, Hash)]
pub struct NameKey {
    pub kind: Kind,
    pub name: Txt,
}

/// Numbers by labels.
pub type LabelTable = NameMap<Txt, u32>;

/// Numbers by kinds and full names.
pub type NameTable = NameMap<NameKey, u32>;
