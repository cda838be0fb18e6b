//! Tokens of a begin, as they are sent.

ghost use Rattle.std.specs.Prelude.{◌≡◌, IfOk};
ghost use Rattle.qe_encodes.specs.Payloads.{sent_tokens};
ghost use Rattle.qe_sending.specs.Sendable.{CanSendPairs};

use qe_base::NoMemory;
use qe_keyring::Keyring;
use qe_plain::Pair;
use qe_tokens::{FieldToken, TokenList};
use std::alloc::Global;

/// For each field of a begin the token of the field that is named.
pub(crate) fn tokens_sent(
    alloc: Global,
    keyring: &Keyring,
    pairs: &[Pair],
) -> Result<TokenList, NoMemory>
    requires { CanSendPairs keyring.now.schema pairs.now }
    ensures { IfOk result (λ tokens. tokens ≡ sent_tokens keyring.now pairs.now) }
{
    let mut tokens = TokenList::new(alloc);
    for pair in pairs {
        let token = keyring.encrypted(pair.sent).ecoc();
        tokens.push(FieldToken {
            field: pair.field,
            token,
        })?;
    }
    Ok(tokens)
}
