//! What the crates of the runtime share: texts and lists that contracts see as plain lists, Data,
//! the numbers of Channels, the stamp of an entry, and the traits through which the runtime meets
//! the world outside.
#![tactic(auto)]

mod channel_no;
mod count_sink;
mod data;
mod file_table;
mod folder;
mod folder_walk;
mod list;
mod mem_folder;
mod mem_sink;
mod memory;
mod pacer;
mod quiet_folder;
mod real_folder;
mod real_pacer;
mod real_sink;
mod script;
mod sink;
mod stamp;
mod step_pacer;
mod text;
mod text_order;

pub use channel_no::ChannelNo;
pub use count_sink::CountSink;
pub use data::Data;
pub use folder::{Folder, FolderErr};
pub use list::List;
pub use mem_folder::MemFolder;
pub use mem_sink::MemSink;
pub use memory::Memory;
pub use pacer::Pacer;
pub use quiet_folder::QuietFolder;
pub use real_folder::RealFolder;
pub use real_pacer::RealPacer;
pub use real_sink::RealSink;
pub use sink::{Sink, SinkErr};
pub use stamp::Stamp;
pub use step_pacer::StepPacer;
pub use text::Text;
