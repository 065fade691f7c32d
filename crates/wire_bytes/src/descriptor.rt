//! Descriptors as bytes: the messages of `descriptor.proto`, each with its fields by rising number. They are written backwards,
//! so in each function below the last field comes first.

mod enumeration;
mod field;
mod file;
mod least_len;
mod message;
mod options;
mod service;
mod type_name;
mod whole_number;

pub use file::{file_bytes, file_bytes_within};
