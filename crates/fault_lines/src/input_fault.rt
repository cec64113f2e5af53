use certificate_reading::CertText;
use sqd_scan::SqdFault;
use table_lines::TableFault;

/// Why the bytes of an input are refused.
#[derive(Clone, Copy, Debug, PartialEq, Eq)]
pub enum InputFault {
    /// There are more bytes than an input may have.
    TooLong,
    /// The first fault of the text of a layout.
    Layout(SqdFault),
    /// The first fault of a table text.
    Table(TableFault),
    /// The first fault of a certificate text.
    Text(CertText),
    /// The first place that a gate's pairs name and that is no site of the layout.
    GateSite(usize),
}
