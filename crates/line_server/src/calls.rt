// The calls that sessions and stores make, each set where another lay.
ghost use Rattle.lwp_types.specs.TextFields.{is_text};
ghost use Rattle.lwp_types.specs.declared.call.Call.TheVariants as call_kind;
ghost use Rattle.lwp_types.specs.declared.call.Mode.TheVariants as mode_kind;
ghost use Rattle.std.specs.Prelude.{◌≡◌, IsTrue};

use lwp_types::{Call, Mode, Text, Tid};

pub fn set_return(call: &mut Call)
    ensures { call.new ≡ call_kind.Return }
{
    *call = Call::Return;
}

pub fn set_agent(call: &mut Call, event: u8)
    ensures { call.new ≡ call_kind.Agent event }
{
    *call = Call::Agent {
        event: u32::from(event),
    };
}

/// A receive that waits.
pub fn set_recv(call: &mut Call, from: Option<Tid>)
    ensures { call.new ≡ call_kind.Recv from mode_kind.Block }
{
    *call = Call::Recv {
        from,
        mode: Mode::Block,
    };
}

/// A letter that any reply fits.
pub fn set_send<'s>(call: &mut Call<'s>, to: Tid, text: &Text<'s>)
    ensures { call.new ≡ call_kind.Send to 240 text.now }
{
    *call = Call::Send {
        to,
        room: 240,
        text: text.again(),
    };
}

pub fn set_reply<'s>(call: &mut Call<'s>, to: Tid, text: &Text<'s>)
    ensures { call.new ≡ call_kind.Reply to text.now }
{
    *call = Call::Reply {
        to,
        text: text.again(),
    };
}

/// A reply of these bytes.
pub fn set_word(call: &mut Call, to: Tid, word: &'static [u8])
    requires { IsTrue (is_text word.now) }
    ensures { call.new ≡ call_kind.Reply to word.now }
{
    *call = Call::Reply {
        to,
        text: Text::lent(word),
    };
}
