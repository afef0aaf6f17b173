ghost use Rattle.std.specs.Prelude.{◌≡◌, ℕ, List, Ok, All, Contains, codes};
ghost use Rattle.front_base.specs.declared.user.User.{User};
ghost use Rattle.http_head.specs.Legal.{IsLegalHeader};
ghost use Rattle.http_head.specs.declared.request.Head.{Head};
ghost use Rattle.token_users.specs.Act.{act_of};
ghost use Rattle.token_users.specs.Carried.{IsCarriedUser, IsPlainUser};
ghost use Rattle.token_users.specs.File.{file_records};
ghost use Rattle.token_users.specs.Who.{user_of, who};
ghost use Rattle.token_users.specs.declared.asker.Who.{Who};
ghost use Rattle.token_users.specs.declared.acting.Act.TheVariants.{As};
ghost use Rattle.token_users.specs.declared.record.Record.{Record};

/// Only a member of `system:masters` acts as another user.
pub fn only_masters_act_as_others()
    ensures { (asker : Who) → (head : Head) → (user : User)
        → act_of asker head ≡ As user → Contains (user_of asker).groups (codes "system:masters") }
{}

/// Names and groups have no control characters: those of each user of a file that is accepted, those of the user that a
/// request counts as by such a file, and those of the user that it acts as.
pub fn users_are_plain()
    ensures of_file { (bytes : List ℕ) → (records : List Record) → file_records bytes ≡ Ok records
        → All (λ r. IsPlainUser r.user) records }
    ensures counted { (bytes : List ℕ) → (records : List Record) → file_records bytes ≡ Ok records
        → (head : Head) → IsPlainUser (user_of (who records head)) }
    ensures acting { (asker : Who) → (head : Head) → (user : User)
        → act_of asker head ≡ As user → IsPlainUser user }
{}

/// A header line carries each name and group as it is. Of the user that a request acts as, where its own headers are legal.
pub fn users_are_carried()
    ensures of_file { (bytes : List ℕ) → (records : List Record) → file_records bytes ≡ Ok records
        → All (λ r. IsCarriedUser r.user) records }
    ensures counted { (bytes : List ℕ) → (records : List Record) → file_records bytes ≡ Ok records
        → (head : Head) → IsCarriedUser (user_of (who records head)) }
    ensures acting { (asker : Who) → (head : Head) → (user : User) → All IsLegalHeader head.headers
        → act_of asker head ≡ As user → IsCarriedUser user }
{}
