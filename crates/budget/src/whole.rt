//! Integer gains, and errors of sample components.
//!
//! A symbol received with an integer gain has an error energy up to 1024 times the gain's square if each sample
//! component deviates by at most twice the gain's magnitude.

ghost use Rattle.budget.specs.Budget.{ErrorsHaveEnergy, WholeGainIsReceived, IsReceivedByMore};

/// A law: with component errors up to `eps`, 128 samples have error energy at most 2^36 `eps`^2, in units of 2^-28: at
/// most 1024 times an integer gain's square if `eps` is at most twice its magnitude.
pub fn whole_gain_is_received()
    ensures energy { ErrorsHaveEnergy }
    ensures received { WholeGainIsReceived }
    ensures more { IsReceivedByMore }
{}
