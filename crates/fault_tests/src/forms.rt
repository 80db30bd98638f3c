//! The command forms, each with a valid input. Made from scripts/forms.txt by `scripts/gate.sh form_list --write`.

use crate::inputs::Input;

/// A form's command line, and its input.
pub type Form = (&'static str, Input);

/// The reports as text.
pub const REPORTS: [Form; 5] = [
    ("hits", Input::Cell16),
    ("ids", Input::Cell16),
    ("ids --deep", Input::Cell16),
    ("search", Input::Cell16),
    ("evidence", Input::Cell16),
];

/// The reports as JSON.
pub const AS_JSON: [Form; 4] = [
    ("hits --json", Input::Cell16),
    ("ids --json", Input::Cell16),
    ("search --json", Input::Cell16),
    ("evidence --json", Input::Cell16),
];

/// The forms that read 8-bit samples.
pub const OF_8_BITS: [Form; 5] = [
    ("hits --format cu8", Input::Cell8),
    ("ids --format cu8", Input::Cell8),
    ("search --format cu8", Input::Cell8),
    ("evidence --format cu8", Input::Cell8),
    ("certify --format cu8", Input::Cell8),
];

/// The forms that read 8-bit samples and write JSON.
pub const OF_8_BITS_AS_JSON: [Form; 5] = [
    ("hits --json --format cu8", Input::Cell8),
    ("ids --json --format cu8", Input::Cell8),
    ("ids --deep all --json --format cu8", Input::Cell8),
    ("search --json --format cu8", Input::Cell8),
    ("evidence --json --format cu8", Input::Cell8),
];

/// The cell lists for other transmission schemes than one antenna port: of input recordings, and of synthetic
/// recordings.
pub const BY_OTHER_RULES: [Form; 6] = [
    ("search --ports 2", Input::Cell16),
    ("search --ports 4", Input::Cell16),
    ("search --prefix long", Input::Cell16),
    ("make 0 --ports 2", Input::Nothing),
    ("make 0 --ports 4", Input::Nothing),
    ("make 0 --prefix long", Input::Nothing),
];

/// The cell lists for other transmission schemes than one antenna port, as JSON and from 8-bit samples.
pub const BY_OTHER_RULES_AND_WORDS: [Form; 8] = [
    ("search --ports 2 --json", Input::Cell16),
    ("search --ports 4 --json", Input::Cell16),
    ("search --prefix long --json", Input::Cell16),
    ("search --ports 2 --format cu8", Input::Cell8),
    ("search --ports 4 --format cu8", Input::Cell8),
    ("search --prefix long --format cu8", Input::Cell8),
    ("search --ports 2 --json --format cu8", Input::Cell8),
    ("search --prefix long --json --format cu8", Input::Cell8),
];

/// The evidence and the certificates for other transmission schemes than one antenna port.
pub const OF_LISTS_BY_OTHER_RULES: [Form; 9] = [
    ("evidence --ports 2", Input::Cell16),
    ("evidence --ports 4", Input::Cell16),
    ("evidence --prefix long", Input::Cell16),
    ("evidence --ports 2 --json", Input::TwoPorts),
    ("evidence --ports 4 --json", Input::FourPorts),
    ("evidence --prefix long --json --format cu8", Input::Cell8),
    ("certify --ports 2", Input::TwoPorts),
    ("certify --ports 4", Input::FourPorts),
    ("certify --prefix long", Input::LongPrefix),
];

/// The reasons for an identity: of the cell, of another one with its root, and of one with another root; and by the
/// other lists.
pub const REASONS: [Form; 9] = [
    ("why 0", Input::Cell16),
    ("why 3", Input::Cell16),
    ("why 1", Input::Cell16),
    ("why 0 --json", Input::Cell16),
    ("why 3 --format cu8", Input::Cell8),
    ("why 1 --json --format cu8", Input::Cell8),
    ("why 90 --ports 2", Input::TwoPorts),
    ("why 90 --ports 4 --json", Input::FourPorts),
    ("why 90 --prefix long", Input::LongPrefix),
];

/// The lists of residuals after cancellation.
pub const CANCELLING: [Form; 4] = [
    ("search --cancel", Input::Cell16),
    ("search --cancel --json", Input::Cell16),
    ("search --cancel --format cu8", Input::Cell8),
    ("search --cancel --json --format cu8", Input::Cell8),
];

/// The lists of every transmission scheme.
pub const OF_ALL: [Form; 4] = [
    ("search --all", Input::Cell16),
    ("search --all --json", Input::Cell16),
    ("search --all --format cu8", Input::Cell8),
    ("search --all --json --format cu8", Input::Cell8),
];

/// The evidence for the lists of every transmission scheme.
pub const EVIDENCE_OF_ALL: [Form; 4] = [
    ("evidence --all", Input::Cell16),
    ("evidence --all --json", Input::TwoPorts),
    ("evidence --all --format cu8", Input::Cell8),
    ("evidence --all --json --format cu8", Input::Cell8),
];

/// The forms with a sample rate.
pub const AT_RATES: [Form; 6] = [
    ("hits --rate 1.92", Input::Cell16),
    ("search --rate 1.92", Input::Cell16),
    ("evidence --format cu8 --rate 1.92", Input::Cell8),
    ("certify --rate 1.92", Input::Cell16),
    ("ids --deep --rate 1.92", Input::Cell16),
    ("why 3 --rate 1.92", Input::Cell16),
];

/// The forms of `lte_tune` that report.
pub const TELLING: [Form; 4] = [
    ("tell", Input::Cell16),
    ("tell --json", Input::Cell16),
    ("tell --format cu8", Input::Cell8),
    ("tell --json --format cu8", Input::Cell8),
];

/// The forms of `lte_tune` that write samples.
pub const APPLYING: [Form; 4] = [
    ("apply", Input::Cell16),
    ("apply -5", Input::Cell16),
    ("apply --format cu8", Input::Cell8),
    ("apply -5 --format cu8", Input::Cell8),
];

/// The pages of each program.
pub const PAGES: [Form; 2] = [("help", Input::Nothing), ("version", Input::Nothing)];

/// The forms that transmit.
pub const SENDING: [Form; 8] = [
    ("transmit", Input::Description),
    ("transmit --load 7", Input::Description),
    ("transmit --ports 2", Input::TwoPortsDescription),
    ("transmit --ports 2 --load 7", Input::TwoPortsDescription),
    ("transmit --ports 4", Input::FourPortsDescription),
    ("transmit --ports 4 --load 7", Input::FourPortsDescription),
    ("transmit --prefix long", Input::Description),
    ("transmit --prefix long --load 7", Input::Description),
];

/// All forms in none of the other lists.
pub const OTHERS: [Form; 4] = [
    ("certify", Input::Cell16),
    ("check", Input::ZeroCertificate),
    ("check", Input::Certificates),
    ("make 0", Input::Nothing),
];
