//! What holds of the tokens of every text. Each law is a function that does nothing: a caller
//! knows the law after the call.

ghost use Rattle.std.specs.Prelude.{◌≡◌, ◌≢◌, ◌+◌, ◌≤◌, ℕ, List, Option, All, slice_get};
ghost use Rattle.trick_text.specs.Tokens.{AreAllTokens, IsCut, IsRefused, IsToken, LiesIn, ReadsAsToken};
ghost use Rattle.trick_text.specs.declared.fault.FirstFault.{FirstFault};
ghost use Rattle.trick_text.specs.declared.fault.TextFault.{TextFault};
ghost use Rattle.trick_text.specs.declared.token.Style.{Style};
ghost use Rattle.trick_text.specs.declared.token.Token.{Token};

/// A text has one list of tokens.
pub fn one_list()
    ensures { (style : Style) (text : List ℕ) (ts us : List Token) → AreAllTokens style text ts
        → AreAllTokens style text us → ts ≡ us }
{}

/// A text with tokens has no fault but a want of memory.
pub fn refused_has_none()
    ensures { (style : Style) (text : List ℕ) (fault : TextFault) (ts : List Token)
        → fault ≢ TextFault.OutOfMemory → IsRefused style text fault
        → AreAllTokens style text ts → ⊥ }
{}

/// A text has one cut: the tokens before its first fault, and that fault.
pub fn one_cut()
    ensures { (style : Style) (text : List ℕ) (ts us : List Token) (f g : Option FirstFault)
        → IsCut style text ts f → IsCut style text us g → (ts ≡ us) × (f ≡ g) }
{}

/// Each of the tokens of a cut is one.
pub fn each_is_a_token()
    ensures { (style : Style) (text : List ℕ) (ts : List Token) (f : Option FirstFault)
        (i : ℕ) (t : Token) → IsCut style text ts f → slice_get ts i ≡ Some t
        → IsToken style text t }
{}

/// Each of the tokens of a text reads as one, for walks along the list.
pub fn all_are_tokens()
    ensures { (style : Style) (text : List ℕ) (ts : List Token) → AreAllTokens style text ts
        → All (ReadsAsToken text) ts }
{}

/// Each of the tokens of a cut has a byte at least, and lies in the text.
pub fn all_lie_inside()
    ensures { (style : Style) (text : List ℕ) (ts : List Token) (f : Option FirstFault)
        → IsCut style text ts f → All (LiesIn text) ts }
{}

/// Two faults of a text that are no want of memory are the same: the first one.
pub fn one_fault()
    ensures { (style : Style) (text : List ℕ) (f g : TextFault) → f ≢ TextFault.OutOfMemory
        → g ≢ TextFault.OutOfMemory → IsRefused style text f → IsRefused style text g → f ≡ g }
{}

/// Each token of a cut begins where the one before it ends, or after that, and on no earlier line.
pub fn in_order()
    ensures place { (style : Style) (text : List ℕ) (ts : List Token) (f : Option FirstFault)
        (i : ℕ) (t u : Token) → IsCut style text ts f → slice_get ts i ≡ Some t
        → slice_get ts (i + 1) ≡ Some u → t.end ≤ u.start }
    ensures line { (style : Style) (text : List ℕ) (ts : List Token) (f : Option FirstFault)
        (i : ℕ) (t u : Token) → IsCut style text ts f → slice_get ts i ≡ Some t
        → slice_get ts (i + 1) ≡ Some u → t.line ≤ u.line }
{}

/// The fault of a cut stands after each of its tokens, and on no earlier line.
pub fn fault_is_behind()
    ensures place { (style : Style) (text : List ℕ) (ts : List Token) (f : FirstFault)
        (i : ℕ) (t : Token) → IsCut style text ts (Some f) → slice_get ts i ≡ Some t
        → t.end ≤ f.start }
    ensures line { (style : Style) (text : List ℕ) (ts : List Token) (f : FirstFault)
        (i : ℕ) (t : Token) → IsCut style text ts (Some f) → slice_get ts i ≡ Some t
        → t.line ≤ f.line }
{}
