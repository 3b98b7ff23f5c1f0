use crate::params::OutgoingParams;
use json_values::Text;

/// The method and the params of a call or a notification that goes out.
#[derive(Debug, Drop)]
pub struct Outgoing {
    pub method: Text,
    pub params: Option<OutgoingParams>,
}

impl Outgoing {
    ghost use Rattle.connection_messages.specs.ReadBack.{IsSayable, AreSayable};

    /// That the method is UTF-8 and the params are params: a law, which does nothing.
    #[inline]
    pub fn is_sayable(&self)
        ensures { IsSayable self.now }
    {
        let _method = self.method.as_str().as_bytes();
        if let Some(params) = &self.params {
            params.are_params();
        }
    }

    /// The same of each call of a batch. The loop does nothing either.
    #[inline]
    pub fn are_sayable(outgoings: &[Outgoing])
        ensures { AreSayable outgoings.now }
    {
        for outgoing in outgoings {
            outgoing.is_sayable();
        }
    }
}
