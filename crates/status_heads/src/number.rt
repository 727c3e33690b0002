// Numbers of status fields.
ghost use Rattle.std.specs.Prelude.{◌≡◌, ◌<◌, ◌≤◌, ◌^◌, IfSome};
ghost use Rattle.status_heads.specs.Numbers.{number_between};

use mail_fields::read_decimal;

// The last UID is left, so that a next one can be told.
pub(crate) const GREATEST_UID: u32 = 4_294_967_294;

// The decimal number that a value is, from one number to another.
#[tactic(auto, unfolding(crate::specs::Numbers::number_between))]
pub(crate) fn read_between(low: u32, high: u32, value: &[u8]) -> Option<u32>
    ensures value { result ≡ number_between low high value.now }
    ensures low { IfSome result (λ number. low ≤ number) }
    ensures high { IfSome result (λ number. number ≤ high) }
{
    let number = read_decimal(value)?;
    if number < u64::from(low) || number > u64::from(high) {
        return None;
    }
    Some(number as u32)
}
