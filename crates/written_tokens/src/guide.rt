ghost use Rattle.std.specs.Prelude.{◌≡◌, ◌≢◌, ◌<◌, ◌++◌, ◌∷◌, [], length, false, IfOk};
ghost use Rattle.charge_model.specs.Prefixes.{can_be};
ghost use Rattle.charge_model.specs.GroundList.{lists_of};
ghost use Rattle.certificate_model.specs.declared.token.Token.{Token as TokenData};
ghost use Rattle.tree_leaves.specs.Subtree.{IsPrefix};
ghost use Rattle.window_model.specs.Windows.{IsWindowList};
ghost use Rattle.written_tokens.specs.Guiding.{IsTokenAt};

use crate::entries::{Entries, entries_of};
use crate::next::token_at;
use certificate_model::Token;
use charge_state::Charge;
use ground_entries::GroundList;
use potential_problem::Problem;
use prefix_bound::Track;
use sidb_units::Memory;
use std::alloc::Global;
use std::marker::Model;
use walk_model::laws::prefixes_have_one_token;
use window_model::Window;

/// What the tokens of a walk go by: the problem, the window, the threshold in 10^-12 V, and what is
/// known of the entries.
#[derive(Drop)]
pub struct Guide<'a> {
    alloc: Global,
    problem: &'a Problem,
    window: Window,
    threshold: Option<i64>,
    entries: Entries,
}

impl<'a> Model for Guide<'a> {
    ghost use Rattle.written_tokens.specs.Guiding.{Guiding};

    ghost Value = { Guiding };

    ghost use Rattle.written_tokens.specs.GuideSeen.{seen, IsGuide};

    ghost view = { seen };

    ghost invariant = { IsGuide };
}

impl<'a> Guide<'a> {
    /// The guide for a window list, which works out here what it needs of each entry.
    pub fn new(
        alloc: Global,
        problem: &'a Problem,
        window: Window,
        threshold: Option<i64>,
        list: &GroundList,
    ) -> Result<Guide<'a>, Memory>
        requires { IsWindowList problem.now window.width (lists_of list.now) }
        ensures problem { IfOk result (λ g. g.problem ≡ problem.now) }
        ensures window { IfOk result (λ g. g.window ≡ window.width) }
        ensures threshold { IfOk result (λ g. g.threshold ≡ threshold) }
        ensures lists { IfOk result (λ g. g.lists ≡ lists_of list.now) }
    {
        let entries = entries_of(alloc, problem, window, list)?;
        Ok(Guide {
            alloc,
            problem,
            window,
            threshold,
            entries,
        })
    }

    /// The problem.
    pub fn problem(&self) -> &Problem
        ensures { result.now ≡ self.now.problem }
    {
        self.problem
    }

    /// The token of the prefix of a track.
    pub fn next_token(&self, track: &Track) -> Result<Token, Memory>
        requires problem { track.now.problem ≡ self.now.problem }
        requires prefix { IsPrefix self.now.problem track.now.prefix }
        requires some { (token : TokenData) × IsTokenAt self.now track.now.prefix token }
        ensures found { IfOk result (IsTokenAt self.now track.now.prefix) }
        ensures only { IfOk result (λ token. (other : TokenData)
            → IsTokenAt self.now track.now.prefix other → other ≡ token) }
    {
        prefixes_have_one_token();
        match token_at(
            self.alloc,
            self.problem,
            self.window,
            self.threshold,
            &self.entries,
            track,
        ) {
            Ok(token) => Ok(token),
            Err(Memory) => Err(Memory),
        }
    }

    /// The token of the prefix of a track with one more charge, which the next site can't have.
    pub fn refused_token(&self, track: &Track, charge: Charge) -> Token
        requires problem { track.now.problem ≡ self.now.problem }
        requires room { length track.now.prefix < self.now.problem.sites }
        requires refused { can_be self.now.problem track.now.prefix (length track.now.prefix) charge
            ≡ false }
        ensures found { IsTokenAt self.now (track.now.prefix ++ charge ∷ []) result }
        ensures only { (other : TokenData)
            → IsTokenAt self.now (track.now.prefix ++ charge ∷ []) other → other ≡ result }
        ensures closes { result ≢ Token.Node }
    {
        prefixes_have_one_token();
        Token::Site(track.refused_at(self.problem, charge))
    }
}
