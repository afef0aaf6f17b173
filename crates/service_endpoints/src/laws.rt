// What keys are to services.
ghost use Rattle.std.specs.Prelude.{◌≡◌, true};
ghost use Rattle.apiservice_rows.specs.declared.service.ServiceRef.{ServiceRef};
ghost use Rattle.service_endpoints.specs.Key.{IsService, delegate_key, is_key, others_key, service_key};

/// Each service that an APIService may name has a key that an endpoints file may give. It is the key of no other such
/// service, nor the delegate's, nor that of the other paths, which the delegate's isn't either.
pub fn keys_tell_services()
    ensures taken { (s : ServiceRef) → IsService s → is_key (service_key s) ≡ true }
    ensures one { (s t : ServiceRef) → IsService s → IsService t → service_key s ≡ service_key t → s ≡ t }
    ensures delegate { (s : ServiceRef) → IsService s → service_key s ≡ delegate_key → ⊥ }
    ensures others { (s : ServiceRef) → IsService s → service_key s ≡ others_key → ⊥ }
    ensures apart { delegate_key ≡ others_key → ⊥ }
{}
