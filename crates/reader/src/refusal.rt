// Why the reader refuses a file.
pub use script::refusal::ReaderRefusal as Refusal;
