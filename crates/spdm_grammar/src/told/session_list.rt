ghost use Rattle.std.specs.Prelude.{◌≡◌, ◌≤◌, ◌<◌, ◌+◌, ◌++◌, [], length, option_to_list};

use crate::{Choice, SessionView, Stage};
use arrayvec::ArrayVec;
use spdm_basis::{AeadAlg, HashAlg, HashBytes, SessionId};
use std::marker::Model;

/// Up to four session views, stored inline. In contracts, a list.
#[derive(Clone, Debug, Drop)]
pub struct SessionList {
    views: ArrayVec<SessionView, 4>,
}

impl Model for SessionList {
    ghost use Rattle.std.specs.Prelude.{List};
    ghost use Rattle.spdm_grammar.specs.declared.told.session_view.SessionView.{SessionView};

    ghost Value = { List SessionView };

    ghost view = { λ l. l.views.items };
}

// What stands in a place of a list that holds no session yet.
impl Default for SessionView {
    fn default() -> SessionView {
        SessionView {
            id: SessionId { req: 0, rsp: 0 },
            stage: Stage::Handshake,
            request_epoch: 0,
            response_epoch: 0,
            request_next: 0,
            response_next: 0,
            taken: 0,
            hash: HashBytes::from([0; 32]),
            choice: Choice {
                hash: HashAlg::Sha256,
                aead: AeadAlg::Aes128Gcm,
                measure: false,
            },
        }
    }
}

impl SessionList {
    /// No session.
    pub fn new() -> SessionList
        ensures { result ≡ [] }
    {
        SessionList {
            views: ArrayVec::new(),
        }
    }

    /// Those of four that are present, in order.
    pub fn of(
        first: Option<SessionView>,
        second: Option<SessionView>,
        third: Option<SessionView>,
        fourth: Option<SessionView>,
    ) -> SessionList
        ensures { result ≡ option_to_list first ++ option_to_list second ++ option_to_list third
            ++ option_to_list fourth }
    {
        let mut list = SessionList::new();
        list.add(first);
        list.add(second);
        list.add(third);
        list.add(fourth);
        list
    }

    // Appends a view, if there is one.
    fn add(&mut self, view: Option<SessionView>)
        requires { length self.old < 4 }
        ensures value { self.new ≡ self.old ++ option_to_list view }
        ensures length { length self.new ≤ length self.old + 1 }
    {
        if let Some(view) = view {
            self.views.push(view);
        }
    }

    /// The sessions.
    pub fn as_slice(&self) -> &[SessionView]
        ensures value { result.now ≡ self.now }
        ensures fits { length self.now ≤ 4 }
    {
        self.views.as_slice()
    }
}
