//! JSON documents in MySQL's binary format: their values, read without a copy, their trees, and the diffs of partial updates.
//!
//! `specs/JsonbValues.antt` defines the value at an offset in a document, `specs/DocumentTrees.antt` the tree of a document and
//! its limits, `specs/JsonDiffs.antt` a diff.
#![tactic(auto)]

mod complex;
mod diff;
mod dom;
mod elements;
mod fields;
mod iterators;
mod parse;
mod reading;
mod storage_format;
mod text;
mod types;
mod value;

pub use complex::ComplexValue;
pub use diff::{
    JsonDiff, JsonDiffOperation, UnknownJsonDiffOperation, check_json_diffs, json_diffs,
};
pub use dom::{JsonContainer, JsonDom, JsonNumber, JsonOpaque, JsonScalar};
pub use iterators::{ArrayIter, ObjectIter, ObjectKeys};
pub use storage_format::{Array, ComplexType, Large, Object, Small, StorageFormat};
pub use text::{JsonbString, ObjectKey, OpaqueValue};
pub use types::{JsonbType, LiteralType, UnknownJsonbType, UnknownLiteralType};
pub use value::Value;
