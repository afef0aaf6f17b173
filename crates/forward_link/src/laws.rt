// What a backend can rely on in a head that is sent on.
ghost use Rattle.std.specs.Prelude.{◌≡◌, ◌≤◌, ◌++◌, ℕ, List, [], ◌∷◌, true, false, Option, codes, length, map, All};
ghost use Rattle.front_base.specs.AuditId.{AuditId, audit_id_text};
ghost use Rattle.front_base.specs.declared.user.User.{User};
ghost use Rattle.http_head.specs.declared.request.Head.{Head};
ghost use Rattle.http_head.specs.Framing.{values_named};
ghost use Rattle.http_head.specs.Legal.{IsLegalHeader};
ghost use Rattle.http_head.specs.Name.{name_begins};
ghost use Rattle.http_head.specs.Request.{IsHeadOf, IsRequestAnswer};
ghost use Rattle.http_head.specs.declared.answer.HeadAnswer.{HeadAnswer};
ghost use Rattle.http_head.specs.declared.block.TheConstants.{MOST_HEADERS, MOST_HEAD_BYTES};
ghost use Rattle.forward_link.specs.declared.target.Target.{Target};
ghost use Rattle.forward_link.specs.Forwarded as spec;
ghost use Rattle.forward_link.specs.Legal.{HasLegalParts, IsCarried, IsNamed};

use http_head::written_heads_are_read_back;

/// Whom a request is from is said here alone, whatever the client's head says: X-Remote-User stands once, with the name of
/// the user who was authenticated, X-Remote-Group once for each of the groups, and no other header's name begins with
/// `X-Remote-`. No Authorization and no Impersonate-* header is sent on, and none of the client's hop headers. To a backend
/// that reads `_` in names as `-` it is the same.
pub fn the_door_says_who_asks()
    ensures user { (head : Head) (user : User) (target : Target) (id : AuditId) (size : Option ℕ)
        → values_named (codes "X-Remote-User") (spec.forwarded head user target id size).headers ≡ user.name ∷ [] }
    ensures groups { (head : Head) (user : User) (target : Target) (id : AuditId) (size : Option ℕ)
        → values_named (codes "X-Remote-Group") (spec.forwarded head user target id size).headers ≡ user.groups }
    ensures nobody_else { (head : Head) (user : User) (target : Target) (id : AuditId) (size : Option ℕ)
        → spec.remote_values (spec.forwarded head user target id size).headers ≡ user.name ∷ user.groups }
    ensures credentials { (head : Head) (user : User) (target : Target) (id : AuditId) (size : Option ℕ)
        → values_named (codes "Authorization") (spec.forwarded head user target id size).headers ≡ [] }
    ensures acting { (head : Head) (user : User) (target : Target) (id : AuditId) (size : Option ℕ)
        → All (λ h. name_begins (codes "Impersonate-") h.name ≡ false) (spec.forwarded head user target id size).headers }
    ensures dashed_user { (head : Head) (user : User) (target : Target) (id : AuditId) (size : Option ℕ)
        → values_named (codes "X-Remote-User") (spec.dashed_names (spec.forwarded head user target id size).headers)
        ≡ user.name ∷ [] }
    ensures dashed_groups { (head : Head) (user : User) (target : Target) (id : AuditId) (size : Option ℕ)
        → values_named (codes "X-Remote-Group") (spec.dashed_names (spec.forwarded head user target id size).headers)
        ≡ user.groups }
    ensures dashed_else { (head : Head) (user : User) (target : Target) (id : AuditId) (size : Option ℕ)
        → spec.remote_values (spec.dashed_names (spec.forwarded head user target id size).headers)
        ≡ user.name ∷ user.groups }
    ensures dashed_acting { (head : Head) (user : User) (target : Target) (id : AuditId) (size : Option ℕ)
        → All (λ h. name_begins (codes "Impersonate-") h.name ≡ false)
        (spec.dashed_names (spec.forwarded head user target id size).headers) }
    ensures hops { (head : Head) (user : User) (target : Target) (id : AuditId) (size : Option ℕ)
        → All (λ h. spec.is_hop head.headers h ≡ false) (spec.passing head.headers) }
{}

/// Where a request that is sent on ends, to whom it goes and which it is, is said here alone: Host, Audit-ID and Connection
/// stand once, Content-Length stands once where the client framed a body and else not at all, and no Transfer-Encoding
/// stands beside it (RFC 9112, section 11.2).
pub fn forwarded_heads_are_framed()
    ensures host { (head : Head) (user : User) (target : Target) (id : AuditId) (size : Option ℕ)
        → values_named (codes "Host") (spec.forwarded head user target id size).headers ≡ spec.host_of target ∷ [] }
    ensures audit { (head : Head) (user : User) (target : Target) (id : AuditId) (size : Option ℕ)
        → values_named (codes "Audit-ID") (spec.forwarded head user target id size).headers ≡ audit_id_text id ∷ [] }
    ensures close { (head : Head) (user : User) (target : Target) (id : AuditId) (size : Option ℕ)
        → values_named (codes "Connection") (spec.forwarded head user target id size).headers ≡ codes "close" ∷ [] }
    ensures length { (head : Head) (user : User) (target : Target) (id : AuditId) (size : Option ℕ)
        → values_named (codes "Content-Length") (spec.forwarded head user target id size).headers
        ≡ map (λ h. h.value) (spec.length_header size) }
    ensures coding { (head : Head) (user : User) (target : Target) (id : AuditId) (size : Option ℕ)
        → values_named (codes "Transfer-Encoding") (spec.forwarded head user target id size).headers ≡ [] }
{}

/// A backend reads back the head that is sent on, whatever follows it. A client's head that was read has legal parts. Where a
/// header line carries the user's name and groups as they are, and a service has names that an APIService may give it, each
/// header that is sent on is legal. So a reader of heads gives the head that was meant (RFC 9112, section 2.2), where it has no
/// more headers and bytes than that reader takes.
pub fn forwarded_heads_are_read_back()
    ensures parts { (block : List ℕ) (head : Head) → IsHeadOf block head → HasLegalParts head }
    ensures legal { (head : Head) (user : User) (target : Target) (id : AuditId) (size : Option ℕ)
        → HasLegalParts head → IsCarried user.name → All IsCarried user.groups → IsNamed target
        → All IsLegalHeader (spec.forwarded head user target id size).headers }
    ensures back { (head : Head) (user : User) (target : Target) (id : AuditId) (size : Option ℕ) (after : List ℕ)
        → HasLegalParts head → IsCarried user.name → All IsCarried user.groups → IsNamed target
        → length (spec.forwarded head user target id size).headers ≤ MOST_HEADERS
        → length (spec.forwarded_head head user target id size) ≤ MOST_HEAD_BYTES
        → IsRequestAnswer (spec.forwarded_head head user target id size ++ after)
        (HeadAnswer.Whole (spec.forwarded head user target id size)
        (length (spec.forwarded_head head user target id size))) }
{
    written_heads_are_read_back();
}
