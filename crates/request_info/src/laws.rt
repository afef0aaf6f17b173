ghost use Rattle.std.specs.Prelude.{◌≡◌, ◌≢◌, ℕ, List, [], ◌∷◌, ◌++◌, ◌⊎◌, Option, Some, Err, IsTrue, IsFalse, false, codes};
ghost use Rattle.form_urlencoded.specs.Form.{raw_pairs};
ghost use Rattle.std.specs.List.{All};
ghost use Rattle.std.specs.Str.{is_utf8};
ghost use Rattle.request_info.specs.Parts.{IsPart, parts_of, path_with};
ghost use Rattle.request_info.specs.Forms.{IsApiPath, IsInCluster, IsInNamespace, IsNamespace, IsSpecialVerb, HasWatch};
ghost use Rattle.request_info.specs.Request.{audit_info, method_verb, verb_of, collection_verb, resource_info, path_info};
ghost use Rattle.request_info.specs.Resource.{Api, Named, api_of, behind_verb, named_by};
ghost use Rattle.request_info.specs.Selection.{first_selector, is_selecting, is_trial};
ghost use Rattle.request_info.specs.Spelling.{Spells};
ghost use Rattle.request_info.specs.Target.{decoded};
ghost use Rattle.request_info.specs.Watch.{asks_watch, text_of};

use crate::fault::InfoFault;

/// The paths of resources are `/api/VERSION/..` and `/apis/GROUP/VERSION/..` with a part after the version, and no others.
pub fn paths_are_in_an_api()
    ensures are { (parts : List (List ℕ)) (api : Api) → IsApiPath parts api → api_of parts ≡ Some api }
    ensures only { (parts : List (List ℕ)) (api : Api) → api_of parts ≡ Some api → IsApiPath parts api }
{}

/// The parts after the version, or after a verb there, name what Kubernetes' resource URIs say: an object or a collection
/// in the cluster, one in a namespace, or a namespace itself.
pub fn paths_name_resources()
    ensures cluster { (parts : List (List ℕ)) (named : Named) → IsInCluster parts named → named_by parts ≡ named }
    ensures namespaced { (parts : List (List ℕ)) (named : Named) → IsInNamespace parts named → named_by parts ≡ named }
    ensures namespace { (parts : List (List ℕ)) (named : Named) → IsNamespace parts named → named_by parts ≡ named }
    ensures only { (parts : List (List ℕ)) (named : Named) → parts ≢ [] → named_by parts ≡ named
        → IsInCluster parts named ⊎ (IsInNamespace parts named ⊎ IsNamespace parts named) }
{}

/// A method's verb is by this table. Every other method, in whatever case, has none.
pub fn methods_have_verbs()
    ensures create { method_verb (codes "POST") ≡ codes "create" }
    ensures update { method_verb (codes "PUT") ≡ codes "update" }
    ensures patch { method_verb (codes "PATCH") ≡ codes "patch" }
    ensures delete { method_verb (codes "DELETE") ≡ codes "delete" }
    ensures get { (method_verb (codes "GET") ≡ codes "get") × (method_verb (codes "HEAD") ≡ codes "get") }
    ensures other { (method : List ℕ) → method ≢ codes "POST" → method ≢ codes "PUT" → method ≢ codes "PATCH"
        → method ≢ codes "DELETE" → method ≢ codes "GET" → method ≢ codes "HEAD" → method_verb method ≡ [] }
{}

/// `watch` and `proxy` after the version are the verb, whatever the method is, and are no part of what is named. With
/// nothing after them they name no kind. Any other first part leaves the method's verb.
pub fn paths_begin_with_verbs()
    ensures verb { (method verb : List ℕ) (parts : List (List ℕ)) → IsSpecialVerb verb
        → (verb_of method (verb ∷ parts) ≡ verb) × (behind_verb (verb ∷ parts) ≡ parts) }
    ensures other { (method first : List ℕ) (parts : List (List ℕ)) → (IsSpecialVerb first → ⊥)
        → (verb_of method (first ∷ parts) ≡ method_verb method) × (behind_verb (first ∷ parts) ≡ first ∷ parts) }
    ensures alone { (method query path : List ℕ) (api : Api) → behind_verb api.parts ≡ []
        → path_info method query path (Some api) ≡ Err InfoFault.NoKind }
{}

/// Without a name, `get` is `watch` where the query asks for one and `list` elsewhere, and `delete` is `deletecollection`;
/// every other verb stays, and with a name each does. Only the verb `proxy` has no subresource.
pub fn collections_have_verbs()
    ensures watch { (query : List ℕ) → IsTrue (asks_watch query) → collection_verb (codes "get") query ≡ codes "watch" }
    ensures list { (query : List ℕ) → IsFalse (asks_watch query) → collection_verb (codes "get") query ≡ codes "list" }
    ensures delete { (query : List ℕ) → collection_verb (codes "delete") query ≡ codes "deletecollection" }
    ensures other { (verb query : List ℕ) → verb ≢ codes "get" → verb ≢ codes "delete" → collection_verb verb query ≡ verb }
    ensures unnamed { (query path : List ℕ) (api : Api) (verb : List ℕ) (named : Named) → named.name ≡ []
        → (resource_info query path api verb named).verb ≡ collection_verb verb query }
    ensures named { (query path : List ℕ) (api : Api) (verb : List ℕ) (named : Named) → named.name ≢ []
        → (resource_info query path api verb named).verb ≡ verb }
    ensures proxied { (query path : List ℕ) (api : Api) (named : Named)
        → (resource_info query path api (codes "proxy") named).subresource ≡ [] }
    ensures subresource { (query path : List ℕ) (api : Api) (verb : List ℕ) (named : Named) → verb ≢ codes "proxy"
        → (resource_info query path api verb named).subresource ≡ named.subresource }
{}

/// A query says no more than whether it asks for a watch: a field selector, as `fieldSelector=metadata.name=NAME`, gives no
/// name.
pub fn queries_give_no_name()
    ensures alike { (method path one two : List ℕ) (found : Option Api) → asks_watch one ≡ asks_watch two
        → path_info method one path found ≡ path_info method two path found }
    ensures name { (query path : List ℕ) (api : Api) (verb : List ℕ) (named : Named)
        → (resource_info query path api verb named).name ≡ named.name }
{}

/// A query asks for a watch exactly where a pair named `watch` has a value other than `false` and `0`, in whatever case, and
/// no pair of that name stands before it.
pub fn the_first_watch_counts()
    ensures asks { (query : List ℕ) → IsTrue (asks_watch query) → HasWatch (raw_pairs query) }
    ensures has { (query : List ℕ) → HasWatch (raw_pairs query) → IsTrue (asks_watch query) }
{}

/// A path has the parts that stand after its slashes.
pub fn slashes_part_paths()
    ensures { (parts : List (List ℕ)) → All IsPart parts → parts_of (path_with parts) ≡ parts }
{}

/// A slash at either end of a path changes none of its parts.
pub fn end_slashes_do_not_count()
    ensures first { (path : List ℕ) → parts_of (47 ∷ path) ≡ parts_of path }
    ensures last { (path : List ℕ) → parts_of (path ++ 47 ∷ []) ≡ parts_of path }
{}

/// A path spells its bytes one after the other: a byte stands for itself, and a percent sign with two hexadecimal digits
/// stands for theirs. A path that spells no text in this way is refused.
pub fn escapes_stand_for_bytes()
    ensures spelled { (spelled path : List ℕ) → decoded spelled ≡ Some path → Spells path spelled × IsTrue (is_utf8 path) }
    ensures decoded { (spelled path : List ℕ) → Spells path spelled → IsTrue (is_utf8 path) → decoded spelled ≡ Some path }
{}

/// A pair with an empty value selects nothing, wherever it stands: no other object is selected with it than without it, and it
/// asks for no less.
pub fn empty_selectors_are_none()
    ensures first { (before after : List (List ℕ × List ℕ)) (pair : List ℕ × List ℕ) → text_of pair.1 ≡ []
        → first_selector (before ++ pair ∷ after) ≡ first_selector (before ++ after) }
    ensures less { (name : List ℕ) → is_trial name ≡ false → is_selecting name [] ≡ false }
{}

/// The method of a request gives its verb, and nothing else of what it asks for.
pub fn the_method_gives_the_verb_alone()
    ensures { (method other target : List ℕ) → record (audit_info method target) { verb = [] } ≡ record (audit_info other target) { verb = [] } }
{}
