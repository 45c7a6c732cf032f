// Bytes and secrets as an answer has them.
use secrets::v3::seed::RapidSecrets;
use std::fmt;

// Two hexadecimal digits for each byte, or `-` for no byte.
#[derive(Drop)]
pub(crate) struct Hex<'a>(pub(crate) &'a [u8]);

impl fmt::Display for Hex<'_> {
    fn fmt<W: fmt::Write>(&self, f: &mut fmt::Formatter<W>) -> fmt::Result {
        if self.0.is_empty() {
            return write!(f, "-");
        }
        for byte in self.0 {
            write!(f, "{byte:02x}")?;
        }
        Ok(())
    }
}

// The seed and the seven secrets, each behind a space. (As the `Words` of `edges`, with other spaces; the reason is
// there.)
#[derive(Drop)]
pub(crate) struct All(pub(crate) RapidSecrets);

impl fmt::Display for All {
    fn fmt<W: fmt::Write>(&self, f: &mut fmt::Formatter<W>) -> fmt::Result {
        write!(f, " {:016x}", self.0.seed)?;
        for secret in self.0.secrets {
            write!(f, " {secret:016x}")?;
        }
        Ok(())
    }
}
