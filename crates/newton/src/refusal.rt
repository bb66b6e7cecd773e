// Why a call of a sheet refuses.
pub use script::refusal::SheetRefusal as Refusal;
