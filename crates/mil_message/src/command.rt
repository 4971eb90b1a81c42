//! Command words from their fields (MIL-STD-1553B 4.3.3.5.1).
ghost use Rattle.mil_message.specs.Forms as words;
ghost use Rattle.mil_mode.specs.Codes.{last_code};
ghost use Rattle.mil_word.specs.Fields.{all_terminals, greatest_field};
ghost use Rattle.std.specs.Prelude.{◌≡◌, ◌≤◌};

use crate::ModeSubaddress;
use mil_word::Command;
use mil_word::fields::{
    ALL_TERMINALS, MODE_SUBADDRESS_OF_ONES, MODE_SUBADDRESS_OF_ZEROS, MOST_WORDS,
};

/// A command word from its fields, each at most 31.
#[inline]
fn command_word(address: u8, transmit: bool, subaddress: u8, field: u8) -> Command
    requires address { address ≤ all_terminals }
    requires subaddress { subaddress ≤ greatest_field }
    requires field { field ≤ greatest_field }
    ensures { result ≡ words.command_word address transmit subaddress field }
{
    let transmit_bit = if transmit { 1 << 10 } else { 0 };
    Command::of(
        u16::from(address) * 0x800 + transmit_bit + u16::from(subaddress) * 0x20 + u16::from(field),
    )
}

/// A command to receive so many data words.
pub fn receive_command(address: u8, subaddress: u8, count: u8) -> Command
    requires address { address ≤ all_terminals }
    requires subaddress { subaddress ≤ greatest_field }
    ensures { result ≡ words.receive_command address subaddress count }
{
    command_word(address, false, subaddress, count % MOST_WORDS)
}

/// A command to transmit so many data words.
pub fn transmit_command(address: u8, subaddress: u8, count: u8) -> Command
    requires address { address ≤ all_terminals }
    requires subaddress { subaddress ≤ greatest_field }
    ensures { result ≡ words.transmit_command address subaddress count }
{
    command_word(address, true, subaddress, count % MOST_WORDS)
}

/// A mode command.
pub fn mode_command(address: u8, transmit: bool, subaddress: ModeSubaddress, code: u8) -> Command
    requires address { address ≤ all_terminals }
    requires code { code ≤ last_code }
    ensures { result ≡ words.mode_command address transmit subaddress code }
{
    let subaddress = match subaddress {
        ModeSubaddress::Zero => MODE_SUBADDRESS_OF_ZEROS,
        ModeSubaddress::ThirtyOne => MODE_SUBADDRESS_OF_ONES,
    };
    command_word(address, transmit, subaddress, code)
}

/// A command to all terminals to receive so many data words.
pub fn receive_command_to_all(subaddress: u8, count: u8) -> Command
    requires { subaddress ≤ greatest_field }
    ensures { result ≡ words.receive_command all_terminals subaddress count }
{
    receive_command(ALL_TERMINALS, subaddress, count)
}

/// A mode command to all terminals.
pub fn mode_command_to_all(transmit: bool, subaddress: ModeSubaddress, code: u8) -> Command
    requires { code ≤ last_code }
    ensures { result ≡ words.mode_command all_terminals transmit subaddress code }
{
    mode_command(ALL_TERMINALS, transmit, subaddress, code)
}
