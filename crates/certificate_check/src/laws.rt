ghost use Rattle.std.specs.Prelude.{◌≡◌, ◌≢◌, ℤ, List, None, Result, Err, IsOk, OnOk, IfErr};
ghost use Rattle.charge_model.specs.Problem.{Problem};
ghost use Rattle.charge_model.specs.GroundList.{Entry};
ghost use Rattle.certificate_model.specs.declared.token.Token.{Token};
ghost use Rattle.certificate_model.specs.declared.refusal.CertRefusal.{CertRefusal};
ghost use Rattle.certificate_model.specs.Certificates.{IsSound};
ghost use Rattle.token_sinks.specs.declared.sink.Stop.{Stop};
ghost use Rattle.token_sinks.specs.Taking.{IsFed};
ghost use Rattle.certificate_check.specs.Checking.{Checking, HasPassed, IsOpening, IsFinished, IsNoCertificate, refused_token};

/// What a checker tells that was new when it was given tokens in turn, and did not want memory:
/// that they are a sound certificate, or the first test that fails.
pub fn fed_checkers_tell()
    ensures sound { (p : Problem) (window : ℤ) (es : List Entry) (old new : Checking)
        (tokens : List Token) (fed : Result (Unit {0}) Stop) (told : Result (Unit {0}) CertRefusal)
        → IsOpening p window es old → new.over ≡ old.over
        → IsFed (HasPassed old) (HasPassed new) (refused_token new.refused) tokens fed
        → fed ≢ Err Stop.Memory → IsFinished new told → (IsOk told → new.refused ≡ None)
        → OnOk told (IsSound p window es tokens) }
    ensures refused { (p : Problem) (window : ℤ) (es : List Entry) (old new : Checking)
        (tokens : List Token) (fed : Result (Unit {0}) Stop) (told : Result (Unit {0}) CertRefusal)
        → IsOpening p window es old → new.over ≡ old.over
        → IsFed (HasPassed old) (HasPassed new) (refused_token new.refused) tokens fed
        → fed ≢ Err Stop.Memory → IsFinished new told
        → IfErr told (IsNoCertificate p window es tokens) }
{}
