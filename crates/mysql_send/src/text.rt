//! Parameter sets of a query as framed text queries: appended to a list of bytes, or written to a
//! writer.

mod made_queries;
mod text_queries;
mod writing;

pub use made_queries::put_made_queries;
pub use text_queries::put_queries;
pub use writing::write_queries;
