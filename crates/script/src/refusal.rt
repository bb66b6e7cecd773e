// Why a script is refused. Each refusal has a number of its own, by which it is printed.
mod reader;
mod sheet;

pub use reader::ReaderRefusal;
pub use sheet::SheetRefusal;
