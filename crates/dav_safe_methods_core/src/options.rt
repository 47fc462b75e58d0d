//! OPTIONS.

ghost use Rattle.std.specs.Prelude.{◌≡◌, [], IfErr, IfOk, OnOk};
ghost use Rattle.http_server.specs.Response.{fields_of};
ghost use Rattle.dav_fields_core.specs.AnswerFields.{options_fields};
ghost use Rattle.dav_fields_core.specs.Fields.{sent_behind, sent_of};
ghost use Rattle.dav_faults_core.specs.declared.faults.Fault.TheVariants as fault;

use dav_faults_core::faults::Fault;
use dav_fields_core::fields::add_options;
use http::StatusCode;
use http_server::Response;

/// Says what the server can do, and lists the methods that are served (RFC 9110 sections 9.3.7 and
/// 10.2.1, RFC 4918 section 10.1); the target isn't looked at. `InsufficientStorage` where it is out
/// of memory.
pub fn options(response: &mut Response) -> Result<StatusCode, Fault>
    requires { response.old.body.items ≡ [] }
    ensures done { IfOk result (λ status. status ≡ 200) }
    ensures sent { OnOk result (sent_of response.new
        ≡ sent_behind (fields_of response.old) (record { fields = options_fields; body = [] })) }
    ensures err { IfErr result (λ e. e ≡ fault.InsufficientStorage) }
{
    add_options(response)?;
    Ok(StatusCode::OK)
}
