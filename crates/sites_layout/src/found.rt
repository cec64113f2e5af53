use sidb_layout::Layout;

/// The layout of a text, and how many items of the text were skipped.
#[derive(Drop)]
pub struct Found {
    pub layout: Layout,
    pub skipped: u64,
}
